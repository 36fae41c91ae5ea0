// Tree 14: the generation records of emptied buckets, each continuing the one that is queued before it.
ghost use Rattle.std.specs.Prelude.{◌≡◌, true, map, ℕ};
ghost use Rattle.wire.specs.Held.{key_in};
ghost use Rattle.wire.specs.Kinds.{bucket_below, bucket_in_range};
ghost use Rattle.wire.specs.declared.kinds.Bucket as kinds;
ghost use Rattle.wire.specs.Positions.{gens_at};
ghost use Rattle.wire.specs.Output.{with_bytes};
ghost use Rattle.format.specs.Gens.{with_gen, no_gens};
ghost use Rattle.calls.specs.Lists.{all_of, in_order};
ghost use Rattle.calls.specs.Generations.{gen_key};
ghost use Rattle.calls.specs.Release.{gens_queued};
ghost use Rattle.calls.specs.Trees.{new_key, with_value};
ghost use Rattle.reader.specs.ListedKeys.{keys_listed};
ghost use Rattle.change_fields.specs.FieldBytes.{keys_bytes};
ghost use Rattle.release_keys.specs.Emptied.{emptied_row, emptied_buckets};
ghost use Rattle.release_keys.specs.GenRecords.{next_queued};

use crate::freed_buckets::EmptiedBucket;
use gens::records::Records;
use wire::key_types::KeyType;
use wire::keys::{Bkey, KeyHead};
use wire::kinds::Bucket;
use wire::output::Output;
use wire::trees::Tree;
use wire::{bpos, positions};

// A record that is started.
fn new_record(b: Bucket) -> Bkey
    ensures { key_in result ≡ new_key 30 0 (gens_at b) no_gens }
{
    Bkey {
        head: KeyHead::new(KeyType::BucketGens.number(), 0, positions::gens_at(b)),
        value: format::gens::no_gens(),
    }
}

// A bucket's record before this release. The limits show the bound. No type shows it: one in range would be a second kind beside `Bucket`, and a bucket of a list may have any number.
fn old_record(records: &Records, b: Bucket) -> Bkey
    requires { bucket_in_range b ≡ true }
    ensures { key_in result ≡ gen_key (keys_listed records.now.gens) b }
{
    match records.record_of(b) {
        Some(key) => key.key(),
        None => new_record(b),
    }
}

// A record with the generation of an emptied bucket. A byte past its end, which refusal 19 rules out, changes nothing.
fn with_generation(k: Bkey, e: EmptiedBucket) -> Bkey
    ensures { key_in result ≡ with_value (key_in k) (with_gen e.bucket e.generation k.value) }
{
    let mut r = k;
    if positions::gens_byte(e.bucket) < r.value.as_slice().len() {
        format::gens::with_gen(&mut r.value, e.bucket, e.generation);
    }
    r
}

// The record of the next emptied bucket: the last one queued is continued where it is the bucket's, and else the one before this release. The limits show the bound.
// No type shows it: one in range would be a second kind beside `Bucket`, and a bucket of a list may have any number.
fn next_record(records: &Records, last: Option<Bkey>, e: EmptiedBucket) -> Bkey
    requires { bucket_in_range e.bucket ≡ true }
    ensures { key_in result ≡ next_queued (keys_listed records.now.gens) last e }
{
    let key = match last {
        Some(key) if bpos::pos_same(key.head.pos, positions::gens_at(e.bucket)) => key,
        _ => old_record(records, e.bucket),
    };
    with_generation(key, e)
}

// The records of all emptied buckets, which ascend. `find_emptied` shows what is required.
// No type shows it: one in range would be a second kind beside `Bucket`, and a bucket of a list may have any number.
pub fn put_gens(out: &mut Output, records: &Records, emptied: &[EmptiedBucket])
    requires { (all_of bucket_in_range (emptied_buckets emptied.now) ≡ true) × (in_order bucket_below (emptied_buckets emptied.now) ≡ true) }
    ensures { (generation_of : kinds.Bucket → ℕ) → emptied.now ≡ map (emptied_row generation_of) (emptied_buckets emptied.now) → out.new ≡ with_bytes out.old (keys_bytes 14 (gens_queued generation_of (keys_listed records.now.gens) (emptied_buckets emptied.now))) }
{
    let mut last = None;
    for &e in emptied {
        let key = next_record(records, last, e);
        out.put_key(Tree::BucketGens.tag(), &key);
        last = Some(key);
    }
}
