// One queued key: what is written of it, what it counts, and what it makes of the volume's keys.
ghost use Rattle.std.specs.Prelude.{◌≡◌, [], ◌∷◌};
ghost use Rattle.wire.specs.Output.{with_bytes};
ghost use Rattle.sorting.specs.Entries.{section_bytes};
ghost use Rattle.sorting.specs.EntrySteps.{entry_listed};
ghost use Rattle.merge.specs.Queues.{shown, front, back};
ghost use Rattle.merge.specs.Merging.{Put};

use crate::below::Rest;
use sorting::entries::Entry;
use wire::key_types::KeyType;
use wire::output::Output;

// A queued key of a type, unless it is a deletion.
fn put_shown(out: &mut Output, key: &Entry, ty: u8)
    requires { ty ≡ (entry_listed key.now).type }
    ensures { out.new ≡ with_bytes out.old (section_bytes key.now.section (shown (entry_listed key.now))) }
{
    if ty != KeyType::Deleted.number() {
        let body = key.body();
        out.put_head(key.section, body.len());
        out.put_slice(body);
    }
}

// What one queued key makes of the volume's keys that are left. `put_all` makes the key of the section of these.
pub fn put_queued(out: &mut Output, rest: &mut Rest, key: &Entry)
    requires { key.now.section ≡ rest.old.section }
    ensures { Put out.old rest.old (front (entry_listed key.now ∷ []) rest.old.keys) (back (entry_listed key.now ∷ []) rest.old.keys) out.new rest.new }
{
    let pos = key.pos();
    let ty = key.key_type();
    rest.put_below(out, Some(pos));
    rest.skip_at(pos);
    put_shown(out, key, ty);
    rest.add_shown(ty, pos);
}
