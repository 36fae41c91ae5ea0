// The sum of each bucket in the lent scratch.
ghost use Rattle.std.specs.Prelude.{◌≡◌, ◌+◌, ◌≤◌, ◌++◌, length, take, drop, replicate};
ghost use Rattle.release_sums.specs.Summing.{Cleared, Marked};

use crate::requests::Freeds;
use reader::skip;
use std::num::NonZero;
use wire::kinds;
use wire::kinds::Bucket;

// How many sums there are: one for each bucket within FORMAT.md's limit.
pub const BUCKETS: usize = 65536;

// How many buckets have one mark.
const GROUP: usize = 64;

// The lent scratch, its first 65,536 sums 0. Whoever makes one shows it.
#[derive(Drop)]
pub struct ClearedScratch<'a> {
    pub sums: &'a mut [u32],
    pub ghost cleared: { Cleared sums.now },
}

// A bucket of which something is freed, and how many sectors of it.
#[derive(Clone, Copy, Drop)]
pub struct BucketSum {
    pub bucket: Bucket,
    pub sectors: u32,
}

// The table of sums, with a mark for each group of 64 buckets: a bucket whose sum is not 0 is in a group that is marked. The sums of the buckets before `next` are taken out.
#[derive(Drop)]
pub struct Sums<'a> {
    pub sums: &'a mut [u32],
    pub marks: [bool; BUCKETS / GROUP],
    pub next: usize,
    pub ghost long: { 65536 ≤ length sums.now },
    pub ghost marked: { Marked sums.now marks },
    pub ghost within: { next ≤ 65536 },
    pub ghost taken: { take next sums.now ≡ replicate next 0 },
}

// Clears the first 65,536 sums. Refusal 1 shows the bound.
pub fn clear(sums: &mut [u32])
    requires { 65536 ≤ length sums.old }
    ensures { sums.new ≡ replicate 65536 0 ++ drop 65536 sums.old }
{
    sums[..BUCKETS].fill(0);
}

impl<'a> Sums<'a> {
    ghost use Rattle.std.specs.Prelude.{true};
    ghost use Rattle.std.specs.Int.NonZero.{non_zero_u64_get};
    ghost use Rattle.calls.specs.Lists.{all_of};
    ghost use Rattle.calls.specs.Release.{freed_ok};
    ghost use Rattle.release_sums.specs.FreedsOf.{freeds_of};
    ghost use Rattle.release_sums.specs.Summing.{Summed, FirstSum};

    // The table with no group marked, and no sum taken out. `ClearedScratch` shows what is required.
    // By the slice and not by a `&mut ClearedScratch`: tried, and the borrow checker covers no slice that is returned past the ghost field of the struct that lends it.
    pub fn new(sums: &'a mut [u32]) -> Sums<'a>
        requires { Cleared sums.old }
        ensures same_reference { result.sums.ghost_name ≡ sums.entry.ghost_name }
        ensures same_sums { result.sums.now ≡ sums.old }
        ensures none_taken { result.next ≡ 0 }
    {
        Sums {
            sums,
            marks: [false; BUCKETS / GROUP],
            next: 0,
        }
    }

    // Adds each piece's sectors to the sum of its bucket, and marks its group. Refusal 14, the limits and `ClearedScratch` show what is required.
    // Apart from `new`: tried there, and an element of an array in a struct with a ghost field is written only through a `&mut`.
    pub fn add_up(&mut self, freeds: Freeds, bucket_sectors: NonZero<u64>)
        requires { (length (freeds_of freeds) ≤ 1024) × (all_of (freed_ok (non_zero_u64_get bucket_sectors)) (freeds_of freeds) ≡ true) × Cleared self.old.sums.now × (self.old.next ≡ 0) }
        ensures same_reference { self.new.sums.ghost_name ≡ self.old.sums.ghost_name }
        ensures summed { Summed (non_zero_u64_get bucket_sectors) (freeds_of freeds.entry) self.new.sums.now × (drop 65536 self.new.sums.now ≡ drop 65536 self.old.sums.now) × (self.new.next ≡ 0) }
    {
        for r in freeds.iter() {
            let b = kinds::bucket_of(r.first, bucket_sectors).0 as usize;
            self.marks[b / GROUP] = true;
            self.sums[b] += r.sectors as u32;
        }
    }

    // The first bucket from `next` on whose sum is not 0, or 65,536. A group that is not marked is passed as a whole.
    fn first_left(&self) -> usize
        ensures { FirstSum self.now.sums.now self.now.next 65536 result }
    {
        // By index: the group's number says where its sums stand.
        let mut from = self.next;
        for group in self.next / GROUP..BUCKETS / GROUP {
            let end = (group + 1) * GROUP;
            if self.marks[group] {
                let first = skip::skip_while(&self.sums[..end], from, |sum: u32| sum == 0);
                if first < end {
                    return first;
                }
            }
            from = end;
        }
        BUCKETS
    }
}

impl<'a> Iterator for Sums<'a> {
    ghost use Rattle.std.specs.Iterator.{item_count};
    ghost use Rattle.release_sums.specs.SumsLeft.{sums_left, SumTaken};

    type Item = BucketSum;

    ghost next_gives = { λ before sum after. SumTaken before sum after };

    ghost remaining = { item_count sums_left };

    // Takes out the next sum that is not 0, if one is left.
    fn next(&mut self) -> Option<BucketSum> {
        let b = self.first_left();
        if b < BUCKETS {
            let sectors = self.sums[b];
            self.sums[b] = 0;
            self.next = b + 1;
            return Some(BucketSum {
                bucket: Bucket(b as u64),
                sectors,
            });
        }
        self.next = BUCKETS;
        None
    }
}
