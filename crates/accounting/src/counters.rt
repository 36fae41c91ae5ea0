// Fields 73, the rows of accounting: what those of more than one call are made of.
ghost use Rattle.std.specs.Prelude.{◌≡◌, ◌+◌, ◌*◌, ◌/◌, ◌%◌, ◌<◌, ◌≤◌, ◌^◌, not, [], ◌∷◌, pos, neg_ℤ, ◌+ℤ◌, length};
ghost use Rattle.wire.specs.Output.{with_bytes};
ghost use Rattle.calls.specs.Lists.{any_of};
ghost use Rattle.calls.specs.Accounting.{is_zero, sectors_row, buckets_row, swapped};
ghost use Rattle.accounting.specs.RowBytes.{rows_bytes};

use wire::output::Output;
use wire::rows;

// Where a row stands: its inode and its offset.
#[derive(Clone, Copy, Drop)]
pub struct RowPos {
    pub inode: u64,
    pub offset: u64,
}

impl RowPos {
    // User sectors.
    pub const SECTORS: RowPos = RowPos {
        inode: 0x0204_0101_0000_0000,
        offset: 0,
    };

    // The keys of extents.
    pub const EXTENTS: RowPos = RowPos {
        inode: 0x05ff_ffff_ff00_0000,
        offset: 0,
    };

    // A data type, by its number.
    // A byte and no `DataType`: a narrower type would ask more of callers.
    pub fn of_type(data_type: u8) -> RowPos
        ensures { result ≡ record { inode = 0x0300000000000000 + data_type * 2 ^ 40; offset = 0 } }
    {
        RowPos {
            inode: 0x0300_0000_0000_0000 + data_type as u64 * 0x0100_0000_0000,
            offset: 0,
        }
    }

    // A compression kind, by its byte.
    // A byte and no `Compression`: a narrower type would ask more of callers.
    pub fn of_kind(kind: u8) -> RowPos
        ensures { result ≡ record { inode = 0x0400000000000000 + kind * 2 ^ 48; offset = 0 } }
    {
        RowPos {
            inode: 0x0400_0000_0000_0000 + kind as u64 * 0x0001_0000_0000_0000,
            offset: 0,
        }
    }

    // An owner, by its inode: byte 8 and the inode's bytes, read from the highest across inode and offset.
    pub fn of_owner(inode: u64) -> RowPos
        ensures { let place = 8 * 256 ^ 8 + swapped 8 inode in result ≡ record { inode = place / 256; offset = place % 256 * 256 ^ 7 } }
    {
        let y = inode.swap_bytes();
        RowPos {
            inode: 0x0800_0000_0000_0000 + y / 256,
            offset: (y % 256) * 0x0100_0000_0000_0000,
        }
    }
}

// Whether numbers have one other than 0.
pub fn is_counted(numbers: &[i64]) -> bool
    ensures { result ≡ any_of (λ z. not (is_zero z)) numbers.now }
{
    numbers.iter().any(|x| *x != 0)
}

// A row; an all-zero row is left out. Rows have one number or three.
pub fn put_counted(out: &mut Output, at: RowPos, numbers: &[i64])
    requires { length numbers.now ≤ 3 }
    ensures { out.new ≡ with_bytes out.old (rows_bytes (record { inode = at.inode; offset = at.offset; numbers = numbers.now } ∷ [])) }
{
    if is_counted(numbers) {
        out.put_row(at.inode, at.offset, numbers);
    }
}

// The difference of two amounts, whose bounds what counts them shows.
// No type bounds an amount: pieces, requests and buckets each bound theirs by another fact.
pub fn difference(a: u64, b: u64) -> i64
    requires { (a < 2 ^ 62) × (b < 2 ^ 62) }
    ensures { result ≡ pos a +ℤ neg_ℤ (pos b) }
{
    rows::plus(a) + rows::minus(b)
}

// User sectors: the one row of one number.
pub fn put_sectors_row(out: &mut Output, sectors: i64)
    ensures { out.new ≡ with_bytes out.old (rows_bytes (sectors_row sectors ∷ [])) }
{
    put_counted(out, RowPos::SECTORS, &[sectors]);
}

// Buckets, sectors and unused sectors of a data type, by its number.
// A byte and no `DataType`: a narrower type would ask more of callers.
pub fn put_buckets_row(out: &mut Output, data_type: u8, buckets: i64, sectors: i64, unused: i64)
    ensures { out.new ≡ with_bytes out.old (rows_bytes (buckets_row data_type buckets sectors unused ∷ [])) }
{
    put_counted(out, RowPos::of_type(data_type), &[buckets, sectors, unused]);
}
