// Keys that are queued without a value: new ones and deletions.
ghost use Rattle.std.specs.Prelude.{◌≡◌, []};
ghost use Rattle.wire.specs.Encode.{encode_field, key_field};
ghost use Rattle.wire.specs.Output.{with_bytes};
ghost use Rattle.calls.specs.Trees.{new_key, deletion};

use wire::bpos::Bpos;
use wire::key_types::KeyType;
use wire::keys::KeyHead;
use wire::output::Output;

// A new key of a tree, without a value. No `KeyHead` is asked for: each caller would only say `KeyHead::new` of the same three.
// Bytes and no `Tree` or `KeyType`: a narrower type would ask more of callers.
pub fn put_new_key(out: &mut Output, tree: u8, key_type: u8, size: u32, pos: Bpos)
    ensures { out.new ≡ with_bytes out.old (encode_field (key_field tree (new_key key_type size pos []))) }
{
    out.put_bare_key(tree, KeyHead::new(key_type, size, pos));
}

// The deletion of what stands at a position of a tree.
// A byte and no `Tree`: a narrower type would ask more of callers.
pub fn put_deletion(out: &mut Output, tree: u8, pos: Bpos)
    ensures { out.new ≡ with_bytes out.old (encode_field (key_field tree (deletion pos))) }
{
    put_new_key(out, tree, KeyType::Deleted.number(), 0, pos);
}
