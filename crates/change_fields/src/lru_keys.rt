// Tree 10: the LRU key of a bucket, which a full bucket has not.
ghost use Rattle.std.specs.Prelude.{◌≡◌, cond, [], ◌∷◌, ltb};
ghost use Rattle.std.specs.Int.NonZero.{non_zero_u64_get};
ghost use Rattle.wire.specs.Output.{with_bytes};
ghost use Rattle.wire.specs.KeyTypes.{key_type_number};
ghost use Rattle.wire.specs.Positions.{lru_at};
ghost use Rattle.format.specs.Lru.{fragmentation};
ghost use Rattle.calls.specs.Lru.{lru_keys, lru_deletions};
ghost use Rattle.calls.specs.Trees.{new_key};
ghost use Rattle.change_fields.specs.FieldBytes.{keys_bytes};

use crate::new_keys;
use format::lru;
use std::num::NonZero;
use wire::key_types::KeyType;
use wire::kinds::Bucket;
use wire::output::Output;
use wire::positions;
use wire::trees::Tree;

// A key of a type where a bucket's LRU key stands.
// The bucket, its dirty count and its sectors make no struct: a release asks at two counts, so each call would make one.
fn put_lru_at(out: &mut Output, key_type: KeyType, b: Bucket, dirty: u32, sectors: NonZero<u64>)
    ensures { out.new ≡ with_bytes out.old (keys_bytes 10 (cond (ltb dirty (non_zero_u64_get sectors)) (new_key (key_type_number key_type) 0 (lru_at (fragmentation dirty (non_zero_u64_get sectors)) b) [] ∷ []) [])) }
{
    if (dirty as u64) < sectors.get() {
        let pos = positions::lru_at(lru::fragmentation(dirty, sectors), b);
        new_keys::put_new_key(out, Tree::Lru.tag(), key_type.number(), 0, pos);
    }
}

// The LRU key of a bucket at a dirty count.
#[tactic(auto, unfolding(calls::specs::Lru::lru_keys))]
pub fn put_lru_key(out: &mut Output, b: Bucket, dirty: u32, sectors: NonZero<u64>)
    ensures { out.new ≡ with_bytes out.old (keys_bytes 10 (lru_keys (non_zero_u64_get sectors) b dirty)) }
{
    put_lru_at(out, KeyType::Set, b, dirty, sectors);
}

// Its deletion.
#[tactic(auto, unfolding(calls::specs::Lru::lru_deletions))]
pub fn put_lru_deletion(out: &mut Output, b: Bucket, dirty: u32, sectors: NonZero<u64>)
    ensures { out.new ≡ with_bytes out.old (keys_bytes 10 (lru_deletions (non_zero_u64_get sectors) b dirty)) }
{
    put_lru_at(out, KeyType::Deleted, b, dirty, sectors);
}
