// A plan, and its pieces at their places, one after the other.
ghost use Rattle.std.specs.Prelude.{◌≡◌, ◌<◌, length};
ghost use Rattle.std.specs.Int.NonZero.{non_zero_u64_get};
ghost use Rattle.reader.specs.PieceLists.{pieces_of};
ghost use Rattle.place_keys.specs.Plan.{Planned, Reached, PieceStepped};

use crate::placed::Placed;
use format::checksums::ChecksumOption;
use next_fit::slot::Slot;
use reader::head::Head;
use reader::pieces::Pieces;
use std::num::NonZero;
use wire::kinds;
use wire::kinds::{Bucket, FileSector};

// What is planned: a list, its pieces and their slots, the buckets taken, their generations, the head, its bucket's sectors and its checksum option.
// No heap: the buckets, their generations and, in a `DirtyPlan`, their dirty counts are tables of the caller, each filled by a pass of its own; for rows of all
// three the buckets would be copied to a second table.
#[derive(Clone, Copy, Drop)]
pub struct Plan<'a> {
    pub list: &'a [u8],
    pub pieces: Pieces<'a>,
    pub slots: &'a [Slot],
    pub taken: &'a [Bucket],
    pub gens: &'a [u8],
    pub head: Head,
    pub sectors: NonZero<u64>,
    pub option: ChecksumOption,
    pub ghost planned: { Planned list.now (pieces_of pieces) slots.now taken.now gens.now head option },
    pub ghost sized: { non_zero_u64_get sectors ≡ head.bucket_sectors },
}

// The pieces of a plan that are left, to be placed: the index of the next one, and where the extent before it ends in the file.
#[derive(Drop)]
pub struct PlacedPieces<'a> {
    pub plan: Plan<'a>,
    pub next: usize,
    pub end: FileSector,
    pub ghost reached: { Reached next end },
}

impl<'a> Plan<'a> {
    ghost use Rattle.calls.specs.Place.{placed_of};
    ghost use Rattle.calls.specs.Answers.{read_call};
    ghost use Rattle.place_keys.specs.Left.{placed_left};

    // Piece i at its place: its extent starts where the last one ends. `PlacedPieces` shows what is asked.
    pub fn piece(&self, i: usize, end: FileSector) -> Placed
        requires i_in_bounds { (i < length (pieces_of self.now.pieces)) × Reached i end }
        ensures { PieceStepped self.now.list.now i end result }
    {
        let piece = self.pieces.get(i);
        let slot = self.slots[i];
        let index = slot.index as usize;
        let bucket = self.taken[index];
        Placed {
            piece,
            first: kinds::sector_at(bucket, self.head.bucket_sectors as u64, slot.offset as u64),
            bucket,
            generation: self.gens[index],
            end: kinds::extent_end(end, piece.file as u64),
        }
    }

    // The pieces from the first on.
    pub fn placed(&self) -> PlacedPieces<'a>
        ensures { placed_left result ≡ placed_of (read_call self.now.list.now) }
    {
        PlacedPieces {
            plan: *self,
            next: 0,
            end: self.head.base,
        }
    }
}

impl<'a> Iterator for PlacedPieces<'a> {
    ghost use Rattle.std.specs.Iterator.{item_count};
    ghost use Rattle.place_keys.specs.Left.{placed_left, Stepped};

    type Item = Placed;

    ghost next_gives = { λ before p after. Stepped (placed_left before) p (placed_left after) };

    ghost remaining = { item_count placed_left };

    // The next piece, if one is left.
    fn next(&mut self) -> Option<Placed> {
        // By index: `Planned` speaks of all pieces and all slots; of iterators over them a ghost field would have to say which of those they have left.
        if self.next >= self.plan.pieces.len() {
            return None;
        }
        let p = self.plan.piece(self.next, self.end);
        self.next += 1;
        self.end = p.end;
        Some(p)
    }
}
