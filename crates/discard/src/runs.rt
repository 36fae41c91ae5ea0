// The runs of neighbouring buckets that a batch makes free: tree 11.
ghost use Rattle.std.specs.Prelude.{◌≡◌, true, map, ◌<◌};
ghost use Rattle.wire.specs.Encode.{encode_field, key_field};
ghost use Rattle.wire.specs.Kinds.{bucket_in_range};
ghost use Rattle.wire.specs.Output.{with_bytes};
ghost use Rattle.calls.specs.Discard.{joined_runs, run_key};
ghost use Rattle.reader.specs.ListedKeys.{keys_listed};
ghost use Rattle.change_fields.specs.FieldBytes.{keys_bytes};
ghost use Rattle.discard.specs.Emitted.{buckets_of, freed_key, ended_run, with_bucket};

use crate::batch::Discarded;
use change_fields::new_keys;
use wire::key_types::KeyType;
use wire::kinds::Bucket;
use wire::output::Output;
use wire::trees::Tree;
use wire::{kinds, positions};

// A run that is not ended yet: its end, which is left out, and how many buckets it has.
#[derive(Clone, Copy, Drop)]
pub struct FreedRun {
    pub end: Bucket,
    pub size: u32,
}

// The key of a run.
fn put_run(out: &mut Output, r: FreedRun)
    ensures { out.new ≡ with_bytes out.old (encode_field (key_field 11 (freed_key r))) }
{
    new_keys::put_new_key(
        out,
        Tree::Freespace.tag(),
        KeyType::Set.number(),
        r.size,
        positions::run_at(r.end),
    );
}

// The run before a bucket, unless the bucket joins it.
fn put_ended(out: &mut Output, r: FreedRun, b: Bucket)
    ensures { out.new ≡ with_bytes out.old (keys_bytes 11 (ended_run r b)) }
{
    if r.end != b {
        put_run(out, r);
    }
}

// The run that a bucket joins, or begins. The limits show the bounds.
// No type shows it: one in range would be a second kind beside `Bucket`, and a bucket of a list may have any number.
fn with_bucket(r: FreedRun, b: Bucket) -> FreedRun
    requires { (bucket_in_range b ≡ true) × (r.size < 4096) }
    ensures { result ≡ with_bucket r b }
{
    let size = if r.end == b { r.size + 1 } else { 1 };
    FreedRun {
        end: kinds::next_bucket(b),
        size,
    }
}

// The runs of a batch.
pub fn put_runs(out: &mut Output, d: &Discarded)
    ensures { out.new ≡ with_bytes out.old (keys_bytes 11 (map run_key (joined_runs (buckets_of (keys_listed d.now.keys))))) }
{
    let mut others = d.keys.iter();
    let Some(first) = others.next() else {
        return;
    };
    let mut r = FreedRun {
        end: kinds::next_bucket(first.bucket()),
        size: 1,
    };
    // Not by `chunk_by`: it takes a slice, as of the places, and its `can_next` asks for a closure that is callable at any two numbers, where a key can be read only at a place of a key.
    for key in others {
        let b = key.bucket();
        put_ended(out, r, b);
        r = with_bucket(r, b);
    }
    put_run(out, r);
}
