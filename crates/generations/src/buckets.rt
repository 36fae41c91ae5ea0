// The buckets asked for: their order and their limits.
ghost use Rattle.std.specs.Prelude.{◌≡◌, true};
ghost use Rattle.wire.specs.Kinds.{bucket_below, buckets_in};
ghost use Rattle.calls.specs.Limits.{buckets_within};
ghost use Rattle.calls.specs.Lists.{in_order};

// How many may be asked for.
const MOST_BUCKETS: usize = 1024;

// Whether they ascend strictly.
pub fn ascend(buckets: &[u32]) -> bool
    ensures { result ≡ in_order bucket_below (buckets_in buckets.now) }
{
    buckets.is_sorted_by(|a, b| *a < *b)
}

// Whether they are few enough, and the last, which is the highest, is low enough. `ascend` shows that they ascend.
// No type holds that they ascend: `bucket_gens` asks it of numbers of any `BucketNumber`, and a type of `u32` alone would serve `within` and `look_up`.
pub fn within(buckets: &[u32]) -> bool
    requires { in_order bucket_below (buckets_in buckets.now) ≡ true }
    ensures { result ≡ buckets_within (buckets_in buckets.now) }
{
    buckets.len() <= MOST_BUCKETS && buckets.last().is_none_or(|last| *last < 65536)
}
