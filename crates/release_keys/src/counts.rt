// What the rows of a release count.
ghost use Rattle.std.specs.Prelude.{◌≡◌, ◌<◌, ◌^◌};
ghost use Rattle.calls.specs.Lists.{total};
ghost use Rattle.release_keys.specs.Given.{requests_in};
ghost use Rattle.release_keys.specs.HeldOf.{held_volume, held_requests, held_buckets};
ghost use Rattle.release_keys.specs.Counting.{UnusedChangeOf};

use crate::table::{FreedTable, HeldTable};

// By how much the sectors change that user buckets do not use: plus those freed of buckets that stay, minus the unused ones of buckets that are emptied.
#[derive(Clone, Copy, Default, Drop)]
pub struct UnusedChange {
    pub added: u64,
    pub removed: u64,
}

// The sectors of all requests.
pub fn total_freed(table: &FreedTable) -> u64
    ensures { (result < 2 ^ 62) × (result ≡ total (λ x. x.sectors) (requests_in table.now.read)) }
{
    table.freeds().iter().map(|r| r.sectors as u64).sum()
}

// The two sums over all freed buckets.
pub fn unused_in(table: &HeldTable) -> UnusedChange
    ensures { (result.added < 2 ^ 62) × (result.removed < 2 ^ 62) × UnusedChangeOf (held_volume table.now) (held_requests table.now) (held_buckets table.now) result }
{
    let mut u = UnusedChange::default();
    // A loop: two chains with `sum` would ask of each bucket twice whether it is emptied, and the closure of a `fold` would need a `requires` that bounds the totals so far.
    for h in table.iter() {
        if h.is_emptied() {
            u.removed += h.bucket_sectors.get() - h.dirty() as u64;
        } else {
            u.added += h.freed.sectors as u64;
        }
    }
    u
}
