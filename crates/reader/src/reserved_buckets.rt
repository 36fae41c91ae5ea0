// The reserved buckets at some places of a list.
use crate::listed::{FixedBody, Listed, ListedLeft};
use wire::kinds;
use wire::kinds::Bucket;

// A list, and the places of the reserved buckets.
pub type ReservedBuckets<'a> = Listed<'a, Bucket>;

// The buckets that are left of some.
pub type BucketsLeft<'a> = ListedLeft<'a, Bucket>;

// A bucket's number has four bytes.
impl FixedBody for Bucket {
    ghost use Rattle.wire.specs.Kinds.{bucket_read};
    ghost use Rattle.wire.specs.declared.kinds.Bucket.{Bucket};

    ghost Seen = { Bucket };

    ghost seen = { λ b. b };

    ghost width = { 4 };

    ghost read = { bucket_read };

    fn read_at(list: &[u8], at: usize) -> Bucket {
        kinds::read_bucket(list, at)
    }
}
