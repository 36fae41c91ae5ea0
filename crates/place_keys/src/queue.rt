// Tree 11: what becomes of the runs that the walk took buckets from.
ghost use Rattle.std.specs.Prelude.{◌≡◌, ◌≤◌, length};
ghost use Rattle.wire.specs.Encode.{encode_field, key_field};
ghost use Rattle.wire.specs.Output.{with_bytes};
ghost use Rattle.calls.specs.Freespace.{shortened};
ghost use Rattle.reader.specs.ListedKeys.{key_listed, keys_listed};
ghost use Rattle.change_fields.specs.FieldBytes.{keys_bytes};
ghost use Rattle.freespace.specs.Walks.{key_queue, queue_of};

use change_fields::new_keys;
use freespace::runs;
use freespace::take::Walked;
use reader::key::ListedKey;
use reader::listed_keys::Keys;
use wire::output::Output;
use wire::trees::Tree;

// A run with so many buckets left: deleted where that is none, else shortened, its versions and value kept.
pub fn put_shortened(out: &mut Output, run: &ListedKey, left: u32)
    ensures { out.new ≡ with_bytes out.old (encode_field (key_field 11 (shortened (key_listed run.now) left))) }
{
    if left == 0 {
        new_keys::put_deletion(out, Tree::Freespace.tag(), run.pos());
        return;
    }
    let mut k = run.key();
    k.head.size = left;
    out.put_key(Tree::Freespace.tag(), &k);
}

// A key that the walk passed, with so many buckets left; one that is no run is left out.
pub fn put_passed(out: &mut Output, key: &ListedKey, left: u32)
    ensures { out.new ≡ with_bytes out.old (keys_bytes 11 (key_queue (key_listed key.now) left)) }
{
    if runs::is_run(*key) {
        put_shortened(out, key, left);
    }
}

// The keys passed, in order: all but the last walked to their ends, the last with what it has left. The walk shows the bound.
pub fn put_queue(out: &mut Output, runs: &Keys, walked: Walked)
    requires { walked.passed ≤ length runs.now.places.now }
    ensures { out.new ≡ with_bytes out.old (keys_bytes 11 (queue_of walked.passed walked.left (keys_listed runs.now))) }
{
    let mut before = runs.up_to(walked.passed).iter();
    let Some(last) = before.next_back() else {
        return;
    };
    for key in before {
        put_passed(out, &key, 0);
    }
    put_passed(out, &last, walked.left);
}
