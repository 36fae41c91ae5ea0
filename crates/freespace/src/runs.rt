// Runs of free buckets: where they start, whether they overlap, and how many buckets are free.
ghost use Rattle.std.specs.Prelude.{◌≡◌, false, ◌≤◌};
ghost use Rattle.calls.specs.Limits.{is_run};
ghost use Rattle.calls.specs.Freespace.{is_in, runs_of, overlaps, free_count};
ghost use Rattle.reader.specs.ListedKeys.{key_listed, keys_listed};
ghost use Rattle.reader.specs.ListedBuckets.{buckets_listed};
ghost use Rattle.reader.specs.Checked.{RunsChecked, ReservedChecked};
ghost use Rattle.freespace.specs.Runs.{began_early, run_in, covering_in, count_below};

use reader::key::ListedKey;
use reader::listed_keys::Keys;
use reader::reserved_buckets::ReservedBuckets;
use wire::key_types::KeyType;
use wire::kinds;
use wire::kinds::Bucket;

// The buckets that a run covers, the end left out.
#[derive(Clone, Copy, Drop)]
pub struct Run {
    pub start: Bucket,
    pub end: Bucket,
}

// Whether a key is a run of free buckets.
pub fn is_run(key: ListedKey) -> bool
    ensures { result ≡ is_run (key_listed key.entry) }
{
    key.key_type() == KeyType::Set.number() && key.pos().inode == 0
}

// Whether it is one that began before bucket 0.
// Beside `run_of`: one function for both would answer `Result<Option<Run>, Refusal>`, and all callers but the walk would drop the refusal.
#[tactic(auto, unfolding(crate::specs::Runs::began_early))]
pub fn began_early(key: ListedKey) -> bool
    ensures { result ≡ began_early (key_listed key.entry) }
{
    is_run(key) && kinds::began_before(key.bucket(), key.size())
}

// The run that a key is, an empty one too: none where it is no run.
#[tactic(auto, unfolding(crate::specs::Runs::run_in))]
pub fn run_of(key: ListedKey) -> Option<Run>
    ensures { result ≡ run_in (key_listed key.entry) }
{
    let end = key.bucket();
    let start = kinds::run_start(end, key.size());
    is_run(key).then_some(Run { start, end })
}

// The run that a key is, if it covers a bucket.
#[tactic(auto, unfolding(crate::specs::Runs::run_in, crate::specs::Runs::covering_in))]
fn covering_run(key: ListedKey) -> Option<Run>
    ensures { result ≡ covering_in (key_listed key.entry) }
{
    run_of(key).filter(|run| run.start < run.end)
}

// Whether two runs overlap: one starts below the end of the last before it that is not empty. Refusals 2, 22 and 3 show what is asked.
// The facts are asked: `Keys` and `Listed` are the types of all keys and buckets, and a checked type would be made, its fact shown, at each call.
pub fn overlaps(runs: Keys) -> bool
    requires { RunsChecked (keys_listed runs) }
    ensures { result ≡ overlaps (runs_of (keys_listed runs.entry)) }
{
    !runs
        .iter()
        .filter_map(|key| covering_run(key))
        .is_sorted_by(|a, b| a.end <= b.start)
}

// How many reserved buckets are below one, of which the first `from` are known to be. Refusals 2, 22 and 3 show that they ascend.
fn reserved_below(reserved: ReservedBuckets, from: usize, b: Bucket) -> usize
    requires { ReservedChecked (buckets_listed reserved) × (from ≤ count_below b (buckets_listed reserved)) }
    ensures { result ≡ count_below b (buckets_listed reserved.entry) }
{
    reserved.skip_while(from, |c| c < b)
}

// How many unreserved buckets the runs have: their sizes, less the reserved buckets in them. Refusals 2, 22, 3 and 10 show what is asked.
pub fn free_count(runs: Keys, reserved: ReservedBuckets) -> u64
    requires { RunsChecked (keys_listed runs) × ReservedChecked (buckets_listed reserved) × (overlaps (runs_of (keys_listed runs)) ≡ false) }
    ensures { result ≡ free_count (is_in (buckets_listed reserved.entry)) (runs_of (keys_listed runs.entry)) }
{
    // A loop and not `fold`, which was tried: what it requires, that its closure may be asked at each turn, stays open.
    let mut free: u64 = 0;
    let mut below: usize = 0;
    for key in runs.iter() {
        if let Some(run) = covering_run(key) {
            let from = reserved_below(reserved, below, run.start);
            below = reserved_below(reserved, from, run.end);
            free += kinds::buckets_between(run.start, run.end) as u64 - (below - from) as u64;
        }
    }
    free
}
