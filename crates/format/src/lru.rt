// The index of fragmentation.
ghost use Rattle.std.specs.Prelude.{◌≡◌};
ghost use Rattle.std.specs.Int.NonZero.{non_zero_u64_get};
ghost use Rattle.format.specs.Lru.{fragmentation};

use std::num::NonZero;

// What the inode of an LRU key adds to 2^61.
#[tactic(auto, unfolding(crate::specs::Lru::fragmentation))]
pub fn fragmentation(dirty: u32, sectors: NonZero<u64>) -> u64
    ensures { result ≡ fragmentation dirty (non_zero_u64_get sectors) }
{
    ((dirty as u64) << 31) / sectors
}
