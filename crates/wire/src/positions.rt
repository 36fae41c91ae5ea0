// The positions that key a tree by a kind, and the kinds that they hold.
ghost use Rattle.std.specs.Prelude.{◌≡◌, ◌+◌, ◌<◌, ◌^◌};
ghost use Rattle.wire.specs.Positions.{extent_at, alloc_at, lru_at, run_at, need_discard_at, backpointer_at, gens_at, gens_byte, bucket_in};

use crate::bpos::Bpos;
use crate::kinds::{Bucket, DeviceSector, FileSector};

// A position at snapshot 0.
fn position(inode: u64, offset: u64) -> Bpos
    ensures { result ≡ record { inode = inode; offset = offset; snapshot = 0 } }
{
    Bpos {
        inode,
        offset,
        snapshot: 0,
    }
}

// Tree 0: an extent, at its end.
pub fn extent_at(inode: u64, end: FileSector) -> Bpos
    ensures { result ≡ extent_at inode end }
{
    Bpos {
        inode,
        offset: end.0,
        snapshot: u32::MAX,
    }
}

// Tree 4: a bucket's alloc key.
pub fn alloc_at(b: Bucket) -> Bpos
    ensures { result ≡ alloc_at b }
{
    position(0, b.0)
}

// Tree 10: a bucket at an index of fragmentation. The key is made only where the dirty count is below the bucket's sectors, so the index is below 2^31.
pub fn lru_at(index: u64, b: Bucket) -> Bpos
    requires { index < 2 ^ 61 }
    ensures { result ≡ lru_at index b }
{
    position((1 << 61) + index, b.0)
}

// Tree 11: a run of free buckets, at its end.
pub fn run_at(end: Bucket) -> Bpos
    ensures { result ≡ run_at end }
{
    position(0, end.0)
}

// Tree 12: a bucket that waits for discard.
pub fn need_discard_at(journal: u64, b: Bucket) -> Bpos
    ensures { result ≡ need_discard_at journal b }
{
    position(journal, b.0)
}

// Tree 13: a backpointer. A bucket below 65,536 of fewer than 65,536 sectors shows the bound.
pub fn backpointer_at(d: DeviceSector) -> Bpos
    requires { d.0 < 2 ^ 48 }
    ensures { result ≡ backpointer_at d }
{
    position(0, d.0 * 65536)
}

// Tree 14: the record with a bucket's generation.
pub fn gens_at(b: Bucket) -> Bpos
    ensures { result ≡ gens_at b }
{
    position(0, b.0 / 256)
}

// The index of the bucket's byte in that record.
pub fn gens_byte(b: Bucket) -> usize
    ensures { result ≡ gens_byte b }
{
    (b.0 % 256) as usize
}

// The bucket that a position names.
pub fn bucket_in(p: Bpos) -> Bucket
    ensures { result ≡ bucket_in p }
{
    Bucket(p.offset)
}
