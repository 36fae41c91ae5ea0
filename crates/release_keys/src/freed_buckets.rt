// The freed buckets that are emptied.
ghost use Rattle.std.specs.Prelude.{◌≡◌, ◌≤◌, length, map};
ghost use Rattle.calls.specs.Lists.{those};
ghost use Rattle.calls.specs.Release.{is_emptied, emptied_gen};
ghost use Rattle.release_keys.specs.HeldOf.{held_volume, held_requests, held_buckets};
ghost use Rattle.release_keys.specs.Emptied.{emptied_row};

use crate::table::HeldTable;
use arrayvec::ArrayVec;
use wire::kinds::Bucket;

// A bucket that is emptied, with its generation afterwards.
#[derive(Clone, Copy, Default, Drop)]
pub struct EmptiedBucket {
    pub bucket: Bucket,
    pub generation: u8,
}

// Lists the emptied buckets with their new generations in a vector, which is cleared first. There are at most as many as requests, which the limits bound.
// The vector is lent: given by value it is copied, 341,000 instructions for 324,400 in a release of one piece.
pub fn find_emptied(table: &HeldTable, emptied: &mut ArrayVec<EmptiedBucket, 1024>)
    ensures { emptied.new.items ≡ map (emptied_row (emptied_gen (held_volume table.now).trees)) (those (is_emptied (held_volume table.now) (held_requests table.now)) (held_buckets table.now)) }
{
    emptied.clear();
    for h in table.iter() {
        if h.is_emptied() {
            emptied.push(EmptiedBucket {
                bucket: h.freed.bucket,
                generation: h.emptied_gen(),
            });
        }
    }
}
