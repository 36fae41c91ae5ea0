// The rows of a placement.
ghost use Rattle.std.specs.Prelude.{◌≡◌, ℕ, ◌*◌, ◌<◌, ◌≤◌, ◌^◌, List, [], ◌∷◌, map, pos, neg_ℤ, ◌+ℤ◌, length};
ghost use Rattle.wire.specs.Bytes.{All};
ghost use Rattle.wire.specs.Encode.{encode};
ghost use Rattle.wire.specs.Rows.{row_field};
ghost use Rattle.wire.specs.declared.kinds.Bucket.{Bucket};
ghost use Rattle.wire.specs.Output.{with_bytes};
ghost use Rattle.format.specs.Checksums.{option_byte};
ghost use Rattle.calls.specs.CallList as lists;
ghost use Rattle.calls.specs.Extents as calls;
ghost use Rattle.calls.specs.Extents.{extent_key};
ghost use Rattle.calls.specs.Accounting.{sectors_row, buckets_row, extents_row};
ghost use Rattle.calls.specs.Place.{place_rows};
ghost use Rattle.reader.specs.Heads.{head_in};
ghost use Rattle.accounting.specs.RowBytes.{rows_bytes};
ghost use Rattle.accounting.specs.Tally.{counts_row, kind_rows, owner_counts, tallies_of, Small, Known};

use crate::counters;
use crate::counters::RowPos;
use crate::tally::{Tallies, Tally};
use format::checksums::ChecksumOption;
use format::data_types::DataType;
use reader::head::Head;
use wire::output::Output;
use wire::rows;

// The row of three counts. The limit on requests shows the bounds.
pub fn put_counts(out: &mut Output, at: RowPos, t: Tally)
    requires { (t.count < 2 ^ 63) × (t.file < 2 ^ 63) × (t.stored < 2 ^ 63) }
    ensures { out.new ≡ with_bytes out.old (rows_bytes (counts_row at.inode at.offset t ∷ [])) }
{
    let numbers = [
        rows::plus(t.count),
        rows::plus(t.file),
        rows::plus(t.stored),
    ];
    counters::put_counted(out, at, &numbers);
}

// The sectors stored, the buckets taken, which are free no longer, and what they have unused.
// The walk shows that few are taken, a field of two bytes the bound of a bucket's sectors, and `tally_pieces` that of those stored.
pub fn put_taken_rows(out: &mut Output, taken: u64, bucket_sectors: u64, stored: u64)
    requires { (taken ≤ 1024) × (bucket_sectors < 65536) × (stored < 2 ^ 62) }
    ensures { out.new ≡ with_bytes out.old (rows_bytes (sectors_row (pos stored) ∷ buckets_row 0 (neg_ℤ (pos taken)) (pos 0) (pos 0) ∷ buckets_row 4 (pos taken) (pos stored) (pos (taken * bucket_sectors) +ℤ neg_ℤ (pos stored)) ∷ [])) }
{
    let unused = counters::difference(taken * bucket_sectors, stored);
    let stored = rows::plus(stored);
    counters::put_sectors_row(out, stored);
    counters::put_buckets_row(out, DataType::Free.number(), rows::minus(taken), 0, 0);
    counters::put_buckets_row(
        out,
        DataType::User.number(),
        rows::plus(taken),
        stored,
        unused,
    );
}

// The extents: their keys, 40 bytes and the value's of each, and the stored sectors. `tally_pieces` shows what is asked.
pub fn put_extents_row(out: &mut Output, option: ChecksumOption, t: Tally)
    requires { Small 1024 t }
    ensures { (h : lists.Head) (ps : List calls.Placed) → option_byte option ≡ h.option → length ps ≡ t.count → out.new ≡ with_bytes out.old (rows_bytes (extents_row (map (extent_key h) ps) t.stored ∷ [])) }
{
    let file = t.count * (40 + 8 * option.extent_size() as u64);
    put_counts(out, RowPos::EXTENTS, Tally { file, ..t });
}

// The owner. `tally_pieces` shows what is asked.
pub fn put_owner(out: &mut Output, inode: u64, t: Tally)
    requires { Small 1024 t }
    ensures { out.new ≡ with_bytes out.old (rows_bytes (owner_counts inode t ∷ [])) }
{
    put_counts(out, RowPos::of_owner(inode), t);
}

// The rows of the compression kinds, from kind 2 on. `tally_pieces` shows what is asked of them, and `Tallies` has four.
pub fn put_kinds(out: &mut Output, kinds: &[Tally])
    requires { All (Small 1024) kinds.now × (length kinds.now ≤ 4) }
    ensures { out.new ≡ with_bytes out.old (rows_bytes (kind_rows 2 kinds.now)) }
{
    for (i, t) in kinds.iter().enumerate() {
        put_counts(out, RowPos::of_kind(i as u8 + 2), *t);
    }
}

// All rows of a placement, by how many buckets are taken, ascending. A plan holds that few are taken and the head's option, and `tally_pieces` shows what is required of the tallies.
// The head and its option apart, as a plan has them: of what reads a plan's head, this and `put_extent` alone ask for the option too.
pub fn put_rows(out: &mut Output, taken: u64, t: &Tallies, h: Head, option: ChecksumOption)
    requires bounds { (taken ≤ 1024) × (option_byte option ≡ h.option) }
    requires known { Known taken t.now }
    ensures { (bs : List Bucket) (ps : List calls.Placed) → length bs ≡ taken → t.now ≡ tallies_of (map (λ p. p.piece) ps) → out.new ≡ with_bytes out.old (encode (map row_field (place_rows (head_in h) bs ps (map (extent_key (head_in h)) ps)))) }
{
    put_taken_rows(out, taken, h.bucket_sectors as u64, t.all.stored);
    put_kinds(out, &t.kinds);
    put_extents_row(out, option, t.all);
    put_owner(out, h.inode, t.all);
}
