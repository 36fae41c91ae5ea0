// The released pieces: field 66.
ghost use Rattle.std.specs.Prelude.{◌≡◌, ◌<◌};
ghost use Rattle.std.specs.Int.NonZero.{non_zero_u64_get};
ghost use Rattle.calls.specs.Release.{freed_ok};
ghost use Rattle.release_sums.specs.Freeds.{freed_held};

use reader::listed::{FixedBody, Listed, ListedLeft};
use reader::read_list::ReadList;
use std::num::NonZero;
use wire::kinds::DeviceSector;
use wire::{kinds, le};

// A released piece: its first sector, and how many sectors it has.
#[derive(Clone, Copy, Drop)]
pub struct Freed {
    pub first: DeviceSector,
    pub sectors: u16,
}

// The released pieces of a list. A struct of its own, since a type of another crate may have no methods here.
#[derive(Clone, Copy, Drop)]
pub struct Freeds<'a> {
    pub pieces: Listed<'a, Freed>,
}

// A released piece has 10 bytes.
impl FixedBody for Freed {
    ghost use Rattle.std.specs.Prelude.{take};
    ghost use Rattle.calls.specs.CallList as calls;
    ghost use Rattle.release_sums.specs.Freeds.{freed_held};

    ghost Seen = { calls.Freed };

    ghost seen = { λ r. freed_held r };

    ghost width = { 10 };

    ghost read = { λ s. calls.freed_of (take 10 s) };

    #[tactic(auto, using(crate::proofs::FreedLaws::freed_read))]
    fn read_at(list: &[u8], at: usize) -> Freed {
        Freed {
            first: DeviceSector(le::le64(list, at)),
            sectors: le::le16(list, at + 8),
        }
    }
}

// Refusal 14 at one piece. Two bytes of a field show the bound.
// No `NonZero<u16>`: `kinds` takes a bucket's sectors in 64 bits, so each use would widen them.
#[tactic(auto, unfolding(calls::specs::Release::freed_ok))]
fn freed_ok(r: Freed, bucket_sectors: NonZero<u64>) -> bool
    requires { non_zero_u64_get bucket_sectors < 65536 }
    ensures { result ≡ freed_ok (non_zero_u64_get bucket_sectors) (freed_held r) }
{
    (1..=128).contains(&r.sectors)
        && kinds::offset_in(r.first, bucket_sectors) + r.sectors as u64 <= bucket_sectors.get()
        && kinds::bucket_in_range(kinds::bucket_of(r.first, bucket_sectors))
}

impl<'a> Freeds<'a> {
    ghost use Rattle.calls.specs.Lists.{all_of};
    ghost use Rattle.release_sums.specs.Freeds.{freeds_in, Requested};
    ghost use Rattle.release_sums.specs.FreedsOf.{freeds_of, freeds_left};

    // Those that a list requests. The reader shows that they are.
    pub fn of(read: &ReadList<'a>) -> Freeds<'a>
        requires { Requested read.now.list.now read.now.requests.now }
        ensures { freeds_of result ≡ freeds_in read.now.list.now read.now.requests.now }
    {
        Freeds {
            pieces: Listed::new(read.list, read.requests),
        }
    }

    // The pieces, from the first on.
    pub fn iter(self) -> ListedLeft<'a, Freed>
        ensures { freeds_left result ≡ freeds_of self.entry }
    {
        self.pieces.iter()
    }

    // Refusal 14: whether every piece lies within its bucket. Two bytes of a field show the bound.
    // No `NonZero<u16>`: `kinds` takes a bucket's sectors in 64 bits, so each use would widen them.
    pub fn all_ok(self, bucket_sectors: NonZero<u64>) -> bool
        requires { non_zero_u64_get bucket_sectors < 65536 }
        ensures { result ≡ all_of (freed_ok (non_zero_u64_get bucket_sectors)) (freeds_of self.entry) }
    {
        self.pieces.all(|r| freed_ok(r, bucket_sectors))
    }
}
