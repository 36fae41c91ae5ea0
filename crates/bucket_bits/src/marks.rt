// A table of 65,536 bits, one for each bucket: bucket b in bit b mod 8 of byte b div 8.
ghost use Rattle.std.specs.Prelude.{◌≡◌, true, ◌<◌, replicate};
ghost use Rattle.wire.specs.Kinds.{bucket_in_range};
ghost use Rattle.calls.specs.Freespace.{is_in, is_used};
ghost use Rattle.reader.specs.ListedKeys.{key_listed, keys_listed};
ghost use Rattle.reader.specs.ListedBuckets.{buckets_listed};
ghost use Rattle.reader.specs.Checked.{AllocChecked, ReservedChecked, in_range};
ghost use Rattle.bucket_bits.specs.Bits.{has_bit, with_bit, marked, with_mark, holds_data, in_use, used_mark, Marks};

use format::alloc;
use format::data_types::DataType;
use reader::key::ListedKey;
use reader::listed_keys::Keys;
use reader::reserved_buckets::ReservedBuckets;
use wire::kinds::Bucket;

// Which buckets are marked.
#[derive(Drop)]
pub struct BucketBits {
    pub bytes: [u8; 8192],
}

// Whether a bit of a byte is 1. A remainder by 8 shows the bound.
fn has_bit(x: u8, k: usize) -> bool
    requires { k < 8 }
    ensures { result ≡ has_bit k x }
{
    x >> k & 1 == 1
}

// A byte with a bit set. A remainder by 8 shows the bound.
fn with_bit(x: u8, k: usize) -> u8
    requires { k < 8 }
    ensures { result ≡ with_bit k x }
{
    x | 1 << k
}

// Whether a key's value is long enough and has a data type other than free.
fn holds_data(key: ListedKey) -> bool
    ensures { result ≡ holds_data (key_listed key.entry).value }
{
    let value = key.value();
    value.len() >= 16 && alloc::data_type(value, 0) != DataType::Free.number()
}

// Whether it is an alloc key at inode 0 whose bucket is in use.
#[tactic(auto, unfolding(crate::specs::Bits::in_use))]
fn in_use(key: ListedKey) -> bool
    ensures { result ≡ in_use (key_listed key.entry) }
{
    key.pos().inode == 0 && holds_data(key)
}

impl BucketBits {
    // No bucket is marked.
    pub fn new() -> BucketBits
        ensures { result.bytes ≡ replicate 8192 0 }
    {
        BucketBits { bytes: [0; 8192] }
    }

    // Whether a bucket is marked. The limits show the bound.
    // No type shows it: one in range would be a second kind beside `Bucket`, and a bucket of a list may have any number.
    #[tactic(auto, unfolding(crate::specs::Bits::marked))]
    pub fn is_marked(&self, b: Bucket) -> bool
        requires { bucket_in_range b ≡ true }
        ensures { result ≡ marked self.now b }
    {
        let i = (b.0 / 8) as usize;
        has_bit(self.bytes[i], (b.0 % 8) as usize)
    }

    // Marks a bucket. The limits show the bound.
    #[tactic(auto, unfolding(crate::specs::Bits::with_mark))]
    fn mark(&mut self, b: Bucket)
        requires { bucket_in_range b ≡ true }
        ensures { self.new ≡ with_mark self.old b }
    {
        let i = (b.0 / 8) as usize;
        self.bytes[i] = with_bit(self.bytes[i], (b.0 % 8) as usize);
    }

    // Marks the bucket of an alloc key, if it is in use. The limits show what is asked.
    fn mark_key(&mut self, key: ListedKey)
        requires { in_range (key_listed key) ≡ true }
        ensures { self.new ≡ used_mark (key_listed key.entry) self.old }
    {
        if in_use(key) {
            self.mark(key.bucket());
        }
    }

    // Marks the reserved buckets, where none is marked. Refusals 2, 22 and 3 show what is asked.
    pub fn mark_reserved(&mut self, reserved: ReservedBuckets)
        requires { ReservedChecked (buckets_listed reserved) × (self.old.bytes ≡ replicate 8192 0) }
        ensures { Marks self.new (is_in (buckets_listed reserved.entry)) }
    {
        for b in reserved.iter() {
            self.mark(b);
        }
    }

    // Marks the buckets in use, where none is marked. Refusals 2, 22 and 3 show what is asked.
    pub fn mark_used(&mut self, keys: Keys)
        requires { AllocChecked (keys_listed keys) × (self.old.bytes ≡ replicate 8192 0) }
        ensures { Marks self.new (is_used (keys_listed keys.entry)) }
    {
        for key in keys.iter() {
            self.mark_key(key);
        }
    }

    // The reserved buckets are marked. Refusals 2, 22 and 3 show what is asked.
    pub fn of_reserved(reserved: ReservedBuckets) -> BucketBits
        requires { ReservedChecked (buckets_listed reserved) }
        ensures { Marks result (is_in (buckets_listed reserved.entry)) }
    {
        let mut bits = BucketBits::new();
        bits.mark_reserved(reserved);
        bits
    }

    // The buckets in use are marked. Refusals 2, 22 and 3 show what is asked.
    pub fn of_used(keys: Keys) -> BucketBits
        requires { AllocChecked (keys_listed keys) }
        ensures { Marks result (is_used (keys_listed keys.entry)) }
    {
        let mut bits = BucketBits::new();
        bits.mark_used(keys);
        bits
    }
}
