// Rows of signed counters.
ghost use Rattle.std.specs.Prelude.{◌≡◌, ◌<◌, ◌≤◌, ◌^◌, pos, neg_ℤ, length};
ghost use Rattle.wire.specs.Output.{with_bytes};
ghost use Rattle.wire.specs.Numbers.{each};
ghost use Rattle.wire.specs.Encode.{encode_field};
ghost use Rattle.wire.specs.Rows.{signed_bytes, row_field};

use crate::output::Output;
use crate::tags::Tag;

// An amount as a signed number. Counts of sectors and buckets within the limits show the bound.
pub fn plus(n: u64) -> i64
    requires { n < 2 ^ 63 }
    ensures { result ≡ pos n }
{
    n as i64
}

// The amount below zero. Counts of sectors and buckets within the limits show the bound.
pub fn minus(n: u64) -> i64
    requires { n < 2 ^ 63 }
    ensures { result ≡ neg_ℤ (pos n) }
{
    -(n as i64)
}

impl<'a> Output<'a> {
    // A signed number in eight bytes.
    pub fn put_i64(&mut self, x: i64)
        ensures { self.new ≡ with_bytes self.old (signed_bytes x) }
    {
        self.put_number(&x.to_le_bytes());
    }

    // Signed numbers. The loop is that of `put_words`: one for both asks for a trait with a law, two impls and the loop, some twenty lines for the fourteen of the two.
    fn put_numbers(&mut self, numbers: &[i64])
        ensures { self.new ≡ with_bytes self.old (each signed_bytes numbers.now) }
    {
        for x in numbers {
            self.put_i64(*x);
        }
    }

    // A row. Rows have one number or three.
    pub fn put_row(&mut self, inode: u64, offset: u64, numbers: &[i64])
        requires { length numbers.now ≤ 3 }
        ensures { self.new ≡ with_bytes self.old (encode_field (row_field (record { inode = inode; offset = offset; numbers = numbers.now }))) }
    {
        self.put_head(Tag::Row.number(), 16 + 8 * numbers.len());
        self.put_u64(inode);
        self.put_u64(offset);
        self.put_numbers(numbers);
    }
}
