// The need-discard keys of emptied buckets.
ghost use Rattle.std.specs.Prelude.{◌≡◌, map};
ghost use Rattle.wire.specs.Output.{with_bytes};
ghost use Rattle.calls.specs.Lru.{need_discard_key};
ghost use Rattle.change_fields.specs.FieldBytes.{keys_bytes};
ghost use Rattle.release_keys.specs.Emptied.{emptied_buckets};

use crate::freed_buckets::EmptiedBucket;
use change_fields::new_keys;
use wire::key_types::KeyType;
use wire::output::Output;
use wire::positions;
use wire::trees::Tree;

// Tree 12: a key for each emptied bucket.
pub fn put_need_discards(out: &mut Output, journal: u64, emptied: &[EmptiedBucket])
    ensures { out.new ≡ with_bytes out.old (keys_bytes 12 (map (need_discard_key journal) (emptied_buckets emptied.now))) }
{
    for e in emptied {
        new_keys::put_new_key(
            out,
            Tree::NeedDiscard.tag(),
            KeyType::Set.number(),
            0,
            positions::need_discard_at(journal, e.bucket),
        );
    }
}
