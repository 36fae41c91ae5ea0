// Tree 4: the alloc key of each freed bucket, with what is left of it.
ghost use Rattle.std.specs.Prelude.{◌≡◌, map, ◌≤◌};
ghost use Rattle.wire.specs.Held.{key_in};
ghost use Rattle.wire.specs.Output.{with_bytes};
ghost use Rattle.calls.specs.Release.{released_key};
ghost use Rattle.change_fields.specs.FieldBytes.{keys_bytes};
ghost use Rattle.release_keys.specs.HeldOf.{held_volume, held_requests, held_buckets};
ghost use Rattle.release_keys.specs.Tables.{freed_key};

use crate::table::{HeldBucket, HeldTable};
use format::alloc;
use wire::keys::Bkey;
use wire::output::Output;
use wire::trees::Tree;

// The alloc key of a freed bucket: emptied, or with what is left of it.
fn freed_key(h: HeldBucket, journal: u64) -> Bkey
    ensures { key_in result ≡ freed_key journal h.entry.list.now h.entry.freed }
{
    let mut k = h.key().key();
    if h.is_emptied() {
        alloc::emptied(&mut k.value, journal);
    } else {
        alloc::with_dirty(&mut k.value, h.dirty() - h.freed.sectors);
    }
    k
}

// The keys of all freed buckets.
pub fn put_allocs(out: &mut Output, table: &HeldTable)
    ensures { out.new ≡ with_bytes out.old (keys_bytes 4 (map (released_key (held_volume table.now) (held_requests table.now)) (held_buckets table.now))) }
{
    for h in table.iter() {
        out.put_key(Tree::Alloc.tag(), &freed_key(h, table.read().head.journal));
    }
}
