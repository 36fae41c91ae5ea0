// Tree 10: the LRU keys of the buckets taken that are part filled.
ghost use Rattle.std.specs.Prelude.{◌≡◌};
ghost use Rattle.std.specs.Int.NonZero.{non_zero_u64_get};
ghost use mathlib.Core.List.{List, flat_map, map};
ghost use Rattle.calls.specs.Extents as calls;
ghost use Rattle.calls.specs.Lru.{part_filled, lru_keys, lru_wanted};
ghost use Rattle.calls.specs.Place.{dirty_in};
ghost use Rattle.change_fields.specs.FieldBytes.{keys_bytes};
ghost use Rattle.wire.specs.Output.{with_bytes};
ghost use Rattle.place_keys.specs.Plan.{Dirty, DirtyKnown};

use change_fields::lru_keys;
use std::num::NonZero;
use wire::kinds::Bucket;
use wire::output::Output;

// The LRU key of a bucket that is part filled, and whether it is, which wants the root.
// Tested here and in `put_lru_key`, which has no answer: its other caller, a release, wants no root by it.
// They make no struct: `put_lru_key` takes them so, since a release asks at two counts.
fn put_lru(out: &mut Output, b: Bucket, dirty: u32, sectors: NonZero<u64>) -> bool
    ensures { (out.new ≡ with_bytes out.old (keys_bytes 10 (lru_keys (non_zero_u64_get sectors) b dirty))) × (result ≡ part_filled (non_zero_u64_get sectors) dirty) }
{
    lru_keys::put_lru_key(out, b, dirty, sectors);
    (dirty as u64) < sectors.get()
}

// The LRU keys of the buckets taken, in order, by their dirty counts, and whether the LRU root is wanted. `put_keys` shows whose they are.
pub fn put_lrus(out: &mut Output, taken: &[Bucket], dirty: &[u32], sectors: NonZero<u64>) -> bool
    requires { DirtyKnown taken.now dirty.now }
    ensures keys { (ps : List calls.Placed) → Dirty ps taken.now dirty.now → out.new ≡ with_bytes out.old (keys_bytes 10 (flat_map (λ b. lru_keys (non_zero_u64_get sectors) b (dirty_in ps b)) taken.now)) }
    ensures root { (ps : List calls.Placed) → Dirty ps taken.now dirty.now → result ≡ lru_wanted (non_zero_u64_get sectors) (map (dirty_in ps) taken.now) }
{
    let mut root_wanted = false;
    for (b, stored) in taken.iter().zip(dirty) {
        root_wanted |= put_lru(out, *b, *stored, sectors);
    }
    root_wanted
}
