// The walk over the runs of free buckets: refusals 12 and 13, the buckets taken and the keys queued.
ghost use Rattle.std.specs.Prelude.{◌≡◌, true, [], ◌∷◌, ◌-◌, ◌≤◌, ◌<◌, ◌^◌, length, take};
ghost use Rattle.wire.specs.Kinds.{run_end_in_range, buckets_up_to};
ghost use Rattle.calls.specs.Freespace.{is_in, is_used, runs_of, pass, walk};
ghost use Rattle.reader.specs.ListedKeys.{key_listed, keys_listed};
ghost use Rattle.reader.specs.ListedBuckets.{buckets_listed};
ghost use Rattle.bucket_bits.specs.Bits.{marked, Tables};
ghost use Rattle.reader.specs.Checked.{AllocChecked, RunsChecked, ReservedChecked};
ghost use Rattle.freespace.specs.Walks.{Walkable, past_key, key_walk, unwalked, WalkEnded, WalkIs};

use crate::runs;
use crate::runs::Run;
use bucket_bits::marks::BucketBits;
use reader::key::ListedKey;
use reader::read_list::ReadList;
use reader::refusal::Refusal;
use wire::kinds;
use wire::kinds::Bucket;

// What the walk makes, so far or in the end, beside the buckets taken.
// No heap: they stand at the front of an array that is lent, and the walk under way has only their number.
#[derive(Clone, Copy, Drop)]
pub struct Walked {
    // How many buckets are taken.
    pub count: usize,
    // How many keys of the tree were passed.
    pub passed: usize,
    // How many buckets the last of them has left.
    pub left: u32,
}

// What the walk goes by: a list that was read, the bits of its reserved buckets and of those in use, and how many buckets are wanted.
// The table of buckets taken is handed to each method and is no field: a walker is only read (`&self`), and with the table in it each clause would have to say that the other parts stay.
#[derive(Clone, Copy, Drop)]
pub struct Walker<'a> {
    pub read: &'a ReadList<'a>,
    pub reserved: &'a BucketBits,
    pub used: &'a BucketBits,
    pub wanted: usize,
    pub ghost tables: { Tables read.now reserved.now used.now },
    pub ghost checked: { RunsChecked (keys_listed read.now.freespace) },
}

impl Walked {
    // One key more is passed, and all its buckets. `walk_key` shows the bound.
    fn past_key(self) -> Walked
        requires { self.passed < 2 ^ 63 }
        ensures { result ≡ past_key self }
    {
        Walked {
            passed: self.passed + 1,
            left: 0,
            ..self
        }
    }
}

impl<'a> Walker<'a> {
    // Walks a run until all buckets are taken: refusal 13 where one of them is used. `walk_key` shows what is asked.
    fn walk_run(&self, run: Run, before: Walked, taken: &mut [Bucket]) -> Result<Walked, Refusal>
        requires { (run_end_in_range run.end ≡ true) × (before.count ≤ self.now.wanted) × (self.now.wanted ≤ length taken.old) × (before.passed < 2 ^ 63) }
        ensures { WalkEnded (pass (marked self.now.reserved.now) (marked self.now.used.now) (self.now.wanted - before.count) (buckets_up_to run.start run.end)) before taken.old taken.new result }
    {
        let mut walked = before.past_key();
        for b in kinds::buckets_up_to(run.start, run.end) {
            if walked.count == self.wanted {
                walked.left = kinds::buckets_between(b, run.end);
                return Ok(walked);
            }
            if self.reserved.is_marked(b) {
                continue;
            }
            if self.used.is_marked(b) {
                return Err(Refusal::BucketInUse);
            }
            taken[walked.count] = b;
            walked.count += 1;
        }
        Ok(walked)
    }

    // Walks one key, if it is a run. `take_buckets` shows what is asked.
    fn walk_key(
        &self,
        key: ListedKey,
        before: Walked,
        taken: &mut [Bucket],
    ) -> Result<Walked, Refusal>
        requires { Walkable (key_listed key) self.now.wanted before taken.old }
        ensures { WalkIs self.now.wanted (λ w. key_listed key.entry ∷ []) (key_walk (is_in (buckets_listed self.now.read.now.reserved)) (is_used (keys_listed self.now.read.now.alloc)) (self.now.wanted - before.count) (key_listed key.entry)) before taken.old taken.new result }
    {
        if runs::began_early(key) {
            return Err(Refusal::RunBeforeBuckets);
        }
        match runs::run_of(key) {
            Some(run) => self.walk_run(run, before, taken),
            None => Ok(before.past_key()),
        }
    }

    // Takes the buckets that are wanted from the runs, in their order. The lent table shows what is asked.
    pub fn take_buckets(&self, taken: &mut [Bucket]) -> Result<Walked, Refusal>
        requires { self.now.wanted ≤ length taken.old }
        ensures { WalkIs self.now.wanted (λ w. take w.passed (keys_listed self.now.read.now.freespace)) (walk (is_in (buckets_listed self.now.read.now.reserved)) (is_used (keys_listed self.now.read.now.alloc)) self.now.wanted (runs_of (keys_listed self.now.read.now.freespace))) unwalked taken.old taken.new result }
    {
        let mut w = Walked {
            count: 0,
            passed: 0,
            left: 0,
        };
        for key in self.read.freespace.iter() {
            if w.count == self.wanted {
                return Ok(w);
            }
            w = self.walk_key(key, w, taken)?;
        }
        Ok(w)
    }
}

// The walk, with its tables filled. Refusals 2, 22 and 3 and the lent table show what is asked.
// Three facts and no type: one type of all three would ask them of `overlaps`, which needs one.
pub fn walk_runs(read: &ReadList, n: usize, taken: &mut [Bucket]) -> Result<Walked, Refusal>
    requires { AllocChecked (keys_listed read.now.alloc) × RunsChecked (keys_listed read.now.freespace) × ReservedChecked (buckets_listed read.now.reserved) × (n ≤ length taken.old) }
    ensures { WalkIs n (λ w. take w.passed (keys_listed read.now.freespace)) (walk (is_in (buckets_listed read.now.reserved)) (is_used (keys_listed read.now.alloc)) n (runs_of (keys_listed read.now.freespace))) unwalked taken.old taken.new result }
{
    let mut reserved = BucketBits::new();
    reserved.mark_reserved(read.reserved);
    let mut used = BucketBits::new();
    used.mark_used(read.alloc);
    let walker = Walker {
        read,
        reserved: &reserved,
        used: &used,
        wanted: n,
    };
    walker.take_buckets(taken)
}
