// Tree 10: a deletion at each freed bucket's old key, and its new one unless it is emptied.
ghost use Rattle.std.specs.Prelude.{◌≡◌};
ghost use Rattle.std.specs.Int.NonZero.{non_zero_u64_get};
ghost use mathlib.Core.List.{flat_map};
ghost use Rattle.wire.specs.Output.{with_bytes};
ghost use Rattle.calls.specs.Release.{released_lru};
ghost use Rattle.change_fields.specs.FieldBytes.{keys_bytes};
ghost use Rattle.release_keys.specs.HeldOf.{held_volume, held_requests, held_buckets};
ghost use Rattle.release_keys.specs.Tables.{row_lru};

use crate::table::{HeldBucket, HeldTable};
use change_fields::lru_keys as lru;
use wire::output::Output;

// The keys of one freed bucket.
fn put_bucket_lru(out: &mut Output, h: HeldBucket)
    ensures { out.new ≡ with_bytes out.old (keys_bytes 10 (row_lru (non_zero_u64_get h.entry.bucket_sectors) h.entry.list.now h.entry.freed)) }
{
    let dirty = h.dirty();
    lru::put_lru_deletion(out, h.freed.bucket, dirty, h.bucket_sectors);
    if !h.is_emptied() {
        let left = dirty - h.freed.sectors;
        lru::put_lru_key(out, h.freed.bucket, left, h.bucket_sectors);
    }
}

// The keys of all freed buckets.
pub fn put_lrus(out: &mut Output, table: &HeldTable)
    ensures { out.new ≡ with_bytes out.old (keys_bytes 10 (flat_map (released_lru (held_volume table.now) (held_requests table.now)) (held_buckets table.now))) }
{
    for h in table.iter() {
        put_bucket_lru(out, h);
    }
}
