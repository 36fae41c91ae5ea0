// The joint lookup: the generations of buckets that ascend, in one walk over the keys of tree 14.
ghost use Rattle.std.specs.Prelude.{◌≡◌, true, ◌≤◌, ◌&&◌, eqb, List, length, map};
ghost use Rattle.wire.specs.Kinds.{bucket_below, bucket_is, buckets_in};
ghost use Rattle.wire.specs.Order.{pos_same};
ghost use Rattle.wire.specs.declared.kinds.Bucket.{Bucket};
ghost use Rattle.wire.specs.Positions.{gens_at};
ghost use Rattle.calls.specs.CallList.{keys_ascend};
ghost use Rattle.calls.specs.Lists.{in_order};
ghost use Rattle.calls.specs.Generations.{gen_record};
ghost use Rattle.reader.specs.ListedKeys.{key_listed, keys_listed};
ghost use Rattle.gens.specs.Joint.{keys_up_to, Looked, each_named, each_itself};
ghost use Rattle.gens.specs.Records.{record_listed};

use crate::{lookup, records};
use reader::key::ListedKey;
use reader::listed_keys::Keys;
use wire::kinds::Bucket;
use wire::{bpos, positions};

// A number that names a bucket: one of 32 or 64 bits, or the bucket's own. A table of such numbers is read as the buckets that they name.
pub trait BucketNumber: Copy {
    ghost named: { Self → Bucket };

    ghost buckets_in: { List Self → List Bucket };

    fn bucket(self) -> Bucket
        ensures { result ≡ named self };

    // The buckets in a table are those that its numbers name, one for each.
    ghost each_named: { (ns : List Self) → buckets_in ns ≡ map named ns };
}

impl BucketNumber for u32 {
    ghost named = { bucket_is };

    ghost buckets_in = { buckets_in };

    ghost each_named = { each_named };

    fn bucket(self) -> Bucket {
        Bucket(self as u64)
    }
}

impl BucketNumber for u64 {
    ghost named = { bucket_is };

    ghost buckets_in = { buckets_in };

    ghost each_named = { each_named };

    fn bucket(self) -> Bucket {
        Bucket(self)
    }
}

impl BucketNumber for Bucket {
    ghost named = { λ b. b };

    ghost buckets_in = { λ bs. bs };

    ghost each_named = { each_itself };

    fn bucket(self) -> Bucket {
        self
    }
}

// How many keys stand up to a bucket's record, where so many are known to: `bucket_gens` shows it by the bucket before, which is lower.
fn keys_up_to(gens: Keys, known: usize, b: Bucket) -> usize
    requires { known ≤ keys_up_to (gens_at b) (keys_listed gens) }
    ensures { result ≡ keys_up_to (gens_at b) (keys_listed gens.entry) }
{
    let p = positions::gens_at(b);
    gens.skip_while(known, |key| !bpos::pos_less(p, key.pos()))
}

// Whether a key is a bucket's record.
fn is_record_of(key: ListedKey, b: Bucket) -> bool
    ensures { result ≡ (pos_same (gens_at b) (key_listed key.entry).pos && eqb (key_listed key.entry).type 30) }
{
    bpos::pos_same(positions::gens_at(b), key.pos()) && records::is_record(key)
}

// A bucket's record, which is the last of the keys up to it, if there is one. Refusal 22 shows that keys ascend, `keys_up_to` how many there are.
fn record_up_to(gens: Keys, k: usize, b: Bucket) -> Option<ListedKey>
    requires { (keys_ascend (keys_listed gens) ≡ true) × (k ≡ keys_up_to (gens_at b) (keys_listed gens)) }
    ensures { record_listed result ≡ gen_record (keys_listed gens.entry) b }
{
    gens.up_to(k).last().filter(|key| is_record_of(*key, b))
}

// Fills in the generation of each bucket, and tells how many keys are visited: up to and with the first past the last bucket's record. Refusal 22 shows that keys ascend, and who
// asks that the buckets do and that there is room.
// No type: of this crate `record_up_to` and this alone ask that keys ascend, and the type that holds it, of alloc keys, stands in a crate above.
// Nor one of buckets that ascend: this alone asks it of any `BucketNumber`.
pub fn bucket_gens<N: BucketNumber>(out: &mut [u8], gens: Keys, buckets: &[N]) -> usize
    requires keys_value { keys_ascend (keys_listed gens) ≡ true }
    requires buckets_value { (in_order bucket_below (N.buckets_in buckets.now) ≡ true) × (length buckets.now ≤ length out.old) }
    ensures { Looked (keys_listed gens.entry) (N.buckets_in buckets.now) out.old out.new result }
{
    let mut k: usize = 0;
    // By index: after an adapter of iter_mut nothing is known of a slice (Rattle's LIBRARY.md).
    for (i, n) in buckets.iter().enumerate() {
        let b = n.bucket();
        k = keys_up_to(gens, k, b);
        out[i] = lookup::record_gen(record_up_to(gens, k, b), b);
    }
    // A case of its own, as in FORMAT.md: for no buckets no key is visited, not even the first.
    if buckets.is_empty() {
        0
    } else {
        gens.len().min(k + 1)
    }
}
