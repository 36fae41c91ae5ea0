// One batch: some alloc keys are discarded (discard_buckets). Each of three functions below is a loop of one call: one function that takes the call as a closure would have to require what the closure writes of a key, which is longer than the loop.
ghost use mathlib.Core.List.{map, flat_map};
ghost use Rattle.std.specs.Prelude.{◌≡◌};
ghost use Rattle.wire.specs.Encode.{encode, encode_field, key_field};
ghost use Rattle.wire.specs.Output.{with_bytes};
ghost use Rattle.wire.specs.Positions.{bucket_in};
ghost use Rattle.calls.specs.ChangeList.{discarded_field};
ghost use Rattle.calls.specs.Discard.{waiting_deletions};
ghost use Rattle.reader.specs.ListedKeys.{key_listed, keys_listed};
ghost use Rattle.change_fields.specs.FieldBytes.{keys_bytes};
ghost use Rattle.need_discard.specs.Kept.{DiscardedKept};
ghost use Rattle.discard.specs.Emitted.{discarded_key, buckets_of, batch_bytes};
ghost use Rattle.discard.specs.Shown.{DiscardShown};

use crate::runs;
use accounting::discarded as rows;
use change_fields::{batch_end, new_keys};
use format::alloc;
use need_discard::waiting::Waiting;
use reader::key::ListedKey;
use reader::listed_keys::Keys;
use wire::output::Output;
use wire::tags::Tag;
use wire::trees::Tree;

// Alloc keys that are discarded, and the need-discard keys. `discarded_in` and the limits show what is said of the alloc keys.
#[derive(Clone, Copy, Drop)]
pub struct Discarded<'a, 'w> {
    pub keys: Keys<'a>,
    pub waiting: &'w Waiting<'w>,
    pub ghost shown: { DiscardShown (keys_listed keys) },
}

// An alloc key, its value discarded. `Discarded` shows what is required of the key.
fn put_alloc_key(out: &mut Output, key: &ListedKey)
    requires { DiscardedKept (key_listed key.now) }
    ensures { out.new ≡ with_bytes out.old (encode_field (key_field 4 (discarded_key (key_listed key.now)))) }
{
    let mut k = key.key();
    alloc::discarded(&mut k.value);
    out.put_key(Tree::Alloc.tag(), &k);
}

// The deletion of the need-discard key that stands for the bucket of an alloc key. `Discarded` shows what is required of the key.
fn put_waiting(out: &mut Output, waiting: &Waiting, key: &ListedKey)
    requires { DiscardedKept (key_listed key.now) }
    ensures { out.new ≡ with_bytes out.old (keys_bytes 12 (waiting_deletions waiting.now (bucket_in (key_listed key.now).pos))) }
{
    if let Some(pos) = waiting.waiting_at(key.bucket()) {
        new_keys::put_deletion(out, Tree::NeedDiscard.tag(), pos);
    }
}

// Tree 4: the alloc keys, discarded.
fn put_alloc_keys(out: &mut Output, d: &Discarded)
    ensures { out.new ≡ with_bytes out.old (keys_bytes 4 (map discarded_key (keys_listed d.now.keys))) }
{
    for key in d.keys.iter() {
        put_alloc_key(out, &key);
    }
}

// Tree 12: the deletions of their need-discard keys.
fn put_deletions(out: &mut Output, d: &Discarded)
    ensures { out.new ≡ with_bytes out.old (keys_bytes 12 (flat_map (waiting_deletions d.now.waiting.now) (buckets_of (keys_listed d.now.keys)))) }
{
    for key in d.keys.iter() {
        put_waiting(out, d.waiting, &key);
    }
}

// Fields 75: their buckets, which are unreserved.
fn put_unreserved(out: &mut Output, d: &Discarded)
    ensures { out.new ≡ with_bytes out.old (encode (map discarded_field (buckets_of (keys_listed d.now.keys)))) }
{
    for key in d.keys.iter() {
        out.put_bucket(Tag::Unreserved.number(), key.bucket());
    }
}

// The batch, in the order of its tags.
pub fn discard_buckets(out: &mut Output, d: &Discarded)
    ensures { out.new ≡ with_bytes out.old (batch_bytes d.now.waiting.now (keys_listed d.now.keys)) }
{
    put_alloc_keys(out, d);
    runs::put_runs(out, d);
    put_deletions(out, d);
    rows::put_rows(out, d.keys.len() as u64);
    put_unreserved(out, d);
    batch_end::put_end(out);
}
