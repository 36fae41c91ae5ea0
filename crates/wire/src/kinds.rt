// Bucket numbers, device sectors and file sectors, each of a kind of its own, and the only ways from one to another.
ghost use Rattle.std.specs.Prelude.{◌≡◌, ◌+◌, ◌<◌, ◌≤◌, ◌^◌, length, drop};
ghost use Rattle.std.specs.Int.NonZero.{non_zero_u64_get};
ghost use Rattle.wire.specs.Kinds.{sector_at, bucket_of, offset_in, extent_end, next_bucket, bucket_in_range, run_end_in_range, run_start, began_before, buckets_up_to, bucket_read, base_in_range, sector_number};

use crate::le;
use std::num::NonZero;

#[derive(Clone, Copy, Default, PartialEq, Eq, PartialOrd, Ord, Drop)]
pub struct Bucket(pub u64);

#[derive(Clone, Copy, PartialEq, Eq, PartialOrd, Ord, Drop)]
pub struct DeviceSector(pub u64);

#[derive(Clone, Copy, PartialEq, Eq, PartialOrd, Ord, Drop)]
pub struct FileSector(pub u64);

// The sector at an offset into a bucket. The limits show the bucket's bound, two-byte fields the others.
pub fn sector_at(b: Bucket, sectors: u64, offset: u64) -> DeviceSector
    requires { (b.0 < 65536) × (sectors < 65536) × (offset < 65536) }
    ensures { result ≡ sector_at b sectors offset }
{
    DeviceSector(b.0 * sectors + offset)
}

// The bucket that a sector lies in.
pub fn bucket_of(d: DeviceSector, sectors: NonZero<u64>) -> Bucket
    ensures { result ≡ bucket_of d (non_zero_u64_get sectors) }
{
    Bucket(d.0 / sectors)
}

// How far into its bucket a sector lies.
pub fn offset_in(d: DeviceSector, sectors: NonZero<u64>) -> u64
    ensures { result ≡ offset_in d (non_zero_u64_get sectors) }
{
    d.0 % sectors
}

// Where an extent of so many sectors ends. The limit on the base shows its bound, and 1,024 pieces of at most 128 sectors the other.
pub fn extent_end(from: FileSector, len: u64) -> FileSector
    requires { (from.0 < 2 ^ 63) × (len < 2 ^ 63) }
    ensures { result ≡ extent_end from len }
{
    FileSector(from.0 + len)
}

// The next bucket. The limits show the bound.
pub fn next_bucket(b: Bucket) -> Bucket
    requires { b.0 < 2 ^ 32 }
    ensures { result ≡ next_bucket b }
{
    Bucket(b.0 + 1)
}

// Whether a bucket number is within FORMAT.md's limit.
pub fn bucket_in_range(b: Bucket) -> bool
    ensures { result ≡ bucket_in_range b }
{
    b.0 < 65536
}

// Whether the end of a run is within FORMAT.md's limit.
// Beside `bucket_in_range`: an end may be one more than a bucket, and one function for both would take the bound as a number, where each name says which bound it is.
pub fn run_end_in_range(b: Bucket) -> bool
    ensures { result ≡ run_end_in_range b }
{
    b.0 <= 65536
}

// Whether a run of so many buckets up to an end began before bucket 0.
pub fn began_before(end: Bucket, size: u32) -> bool
    ensures { result ≡ began_before end size }
{
    end.0 < size as u64
}

// The first bucket of such a run; 0 where it began before that.
// Not one function with `began_before` that answers an `Option`: `run_of` of freespace takes a run that began too early as one from bucket 0 on, and so would put 0 for the `None`.
pub fn run_start(end: Bucket, size: u32) -> Bucket
    ensures { result ≡ run_start end size }
{
    Bucket(end.0.saturating_sub(size as u64))
}

// How many buckets stand from a first one up to an end, the end left out. The limits show the bound.
pub fn buckets_between(start: Bucket, end: Bucket) -> u32
    requires { (start.0 ≤ end.0) × (end.0 ≤ 65536) }
    ensures { result ≡ length (buckets_up_to start end) }
{
    (end.0 - start.0) as u32
}

// The buckets from one up to an end, the end left out: what is left of them.
#[derive(Drop)]
pub struct Buckets {
    pub next: Bucket,
    pub end: Bucket,
}

// Those from a first one on.
pub fn buckets_up_to(start: Bucket, end: Bucket) -> Buckets
    ensures { (result.next ≡ start) × (result.end ≡ end) }
{
    Buckets { next: start, end }
}

impl Iterator for Buckets {
    ghost use Rattle.std.specs.Iterator.{at_most};
    ghost use Rattle.std.specs.Prelude.{◌-◌};
    ghost use Rattle.wire.specs.BucketSteps.{BucketStepped};

    type Item = Bucket;

    ghost next_gives = { λ before b after. BucketStepped before b after };

    ghost remaining = { λ left. at_most (left.end.0 - left.next.0) };

    // The next bucket, if one is left.
    fn next(&mut self) -> Option<Bucket> {
        let b = self.next;
        if b.0 >= self.end.0 {
            return None;
        }
        self.next = Bucket(b.0 + 1);
        Some(b)
    }
}

// The bucket at a place of a list. The length of a field 64 shows the bound.
pub fn read_bucket(s: &[u8], at: usize) -> Bucket
    requires { at + 4 ≤ length s.now }
    ensures { result ≡ bucket_read (drop at s.now) }
{
    Bucket(le::le32(s, at) as u64)
}

// Whether a base is within FORMAT.md's limit.
pub fn base_in_range(f: FileSector) -> bool
    ensures { result ≡ base_in_range f }
{
    f.0 < 1 << 40
}

// A device sector as a pointer has it.
pub fn sector_word(sector: DeviceSector) -> u64
    ensures { result ≡ sector_number sector }
{
    sector.0
}
