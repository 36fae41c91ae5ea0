// The layout of pieces: the slot of each, in a table, and how many buckets they need.
ghost use Rattle.std.specs.Prelude.{◌≡◌, ◌<◌, ◌≤◌, map, length, take, set};
ghost use Rattle.calls.specs.Pieces.{next_fit, buckets_needed};
ghost use Rattle.reader.specs.Pieces.{piece_in};
ghost use Rattle.reader.specs.PieceLists.{pieces_of};
ghost use Rattle.next_fit.specs.Fit.{table_slot, slots_in, fit_slot, fit_piece, lay, unused};

use crate::slot::{OpenBucket, Slot};
use reader::piece::Piece;
use reader::pieces::Pieces;

// The open bucket after a piece, whose slot is put at an index of a table. Two-byte fields and 1,024 pieces show the bounds.
#[tactic(auto, unfolding(calls::specs::Pieces::next_fit, crate::specs::Fit::first_of, crate::specs::Fit::fit_slot, crate::specs::Fit::fit_piece))]
pub fn fit_piece(
    slots: &mut [Slot],
    i: usize,
    bucket: u64,
    before: OpenBucket,
    p: Piece,
) -> OpenBucket
    requires { (i < length slots.old) × (before.index < 65535) × (before.used < 65536) }
    ensures { (result ≡ fit_piece bucket before p) × (slots.new ≡ set slots.old i (table_slot (fit_slot bucket before p))) }
{
    let stored = p.stored as u64;
    let fit = before.next_fit(stored, bucket);
    slots[i] = Slot {
        index: fit.index as u16,
        offset: fit.offset as u16,
    };
    OpenBucket {
        index: fit.index,
        used: fit.offset + stored,
    }
}

// The slots of the pieces that are lent, each by `fit_piece`, at the front of a table, and the bucket that is open after them. Two-byte fields and 1,024 pieces show the bounds.
pub fn layout(pieces: &[Piece], bucket: u64, slots: &mut [Slot]) -> OpenBucket
    requires { (length pieces.now ≤ 1024) × (length pieces.now ≤ length slots.old) × (bucket < 65536) }
    ensures { (result ≡ lay bucket unused pieces.now) × (slots_in (take (length pieces.now) slots.new) ≡ next_fit bucket 0 0 (map (λ p. p.stored) pieces.now)) }
{
    let mut open = OpenBucket { index: 0, used: 0 };
    // By index: after an adapter of iter_mut nothing is known of a slice (Rattle's LIBRARY.md).
    for (i, p) in pieces.iter().enumerate() {
        // Read by itself, so that a proof knows that it fits two bytes.
        let _stored = p.stored;
        open = fit_piece(slots, i, bucket, open, *p);
    }
    open
}

// The pieces of a call list as records, at the front of an array. Refusal 3 shows that they are few.
// They are copied since `layout` takes a slice of records, the form that the user's document names.
// No type bounds them: `Pieces` is a `Listed`, which reads the fields of any kind, and `layout` keeps the form that the document names.
// No heap: an array, of whose front `lay_out` takes as many as there are pieces.
pub fn read_pieces(pieces: &Pieces) -> [Piece; 1024]
    requires { length (pieces_of pieces.now) ≤ 1024 }
    ensures { map piece_in (take (length (pieces_of pieces.now)) result) ≡ pieces_of pieces.now }
{
    let none = Piece {
        file: 0,
        stored: 0,
        kind: 0,
        checksum: 0,
    };
    let mut records = [none; 1024];
    // By index: after an adapter of iter_mut nothing is known of an array (Rattle's LIBRARY.md).
    for (i, p) in pieces.iter().enumerate() {
        records[i] = p;
    }
    records
}

// Lays the pieces of a call list out, read into records first: their slots at the front of a table, and how many buckets they need. Refusal 3 shows that they are few; who lends the table shows that it is as long.
// No type bounds them: `Pieces` is a `Listed`, which reads the fields of any kind.
pub fn lay_out(pieces: &Pieces, bucket: u16, slots: &mut [Slot]) -> usize
    requires { (length (pieces_of pieces.now) ≤ 1024) × (length (pieces_of pieces.now) ≤ length slots.old) }
    ensures { (result ≡ buckets_needed (next_fit bucket 0 0 (map (λ p. p.stored) (pieces_of pieces.now)))) × (slots_in (take (length (pieces_of pieces.now)) slots.new) ≡ next_fit bucket 0 0 (map (λ p. p.stored) (pieces_of pieces.now))) }
{
    let n = pieces.len();
    // Without pieces no array is filled.
    if n == 0 {
        return 0;
    }
    let records = read_pieces(pieces);
    layout(&records[..n], bucket as u64, slots);
    buckets_needed(&slots[..n])
}

// How many buckets pieces with these slots need.
#[tactic(auto, unfolding(calls::specs::Pieces::buckets_needed))]
pub fn buckets_needed(slots: &[Slot]) -> usize
    ensures { result ≡ buckets_needed (slots_in slots.now) }
{
    slots.last().map_or(0, |slot| slot.index as usize + 1)
}
