// The lines of all that is no key: a name and its numbers.
ghost use Rattle.std.specs.Prelude.{◌≡◌, [], ◌∷◌, ◌≤◌, length};
ghost use Rattle.wire.specs.Output.{with_bytes};
ghost use Rattle.lines.specs.Digits.{decimal};
ghost use Rattle.lines.specs.Lines.{line, placed_words, row_words, refused_line};

use crate::blanks;
use wire::le;
use wire::output::Output;

// A name and a number.
pub fn put_named(out: &mut Output, name: &[u8], n: u64)
    ensures { out.new ≡ with_bytes out.old (line (name.now ∷ decimal n ∷ [])) }
{
    out.put_slice(name);
    blanks::put_next_decimal(out, n);
    out.put_u8(b'\n');
}

// A piece that was placed: device sector, stored sectors, bucket, generation. The layout of a change list shows the bound.
pub fn put_placed(out: &mut Output, body: &[u8])
    requires { 15 ≤ length body.now }
    ensures { out.new ≡ with_bytes out.old (line (placed_words body.now)) }
{
    out.put_slice(b"placed");
    blanks::put_next_decimal(out, le::le64(body, 0));
    blanks::put_next_decimal(out, le::le16(body, 8) as u64);
    blanks::put_next_decimal(out, le::le32(body, 10) as u64);
    blanks::put_next_decimal(out, le::le8(body, 14) as u64);
    out.put_u8(b'\n');
}

// A row: inode and offset in hexadecimal, and its signed numbers. The layout of a change list shows the bound.
pub fn put_row(out: &mut Output, body: &[u8])
    requires { 16 ≤ length body.now }
    ensures { out.new ≡ with_bytes out.old (line (row_words body.now)) }
{
    out.put_slice(b"row");
    blanks::put_next_word(out, le::le64(body, 0));
    blanks::put_next_word(out, le::le64(body, 8));
    blanks::put_numbers(out, &body[16..]);
    out.put_u8(b'\n');
}

// The line of a refusal.
pub fn put_refused(out: &mut Output, number: u32)
    ensures { out.new ≡ with_bytes out.old (refused_line number) }
{
    put_named(out, b"refused", number as u64);
}
