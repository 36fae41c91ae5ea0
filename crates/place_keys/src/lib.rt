// Where each piece of a placement lies, the keys written for the pieces and their buckets, and the clock.
#![tactic(auto)]

pub mod allocs;
pub mod backpointers;
pub mod clock;
pub mod dirty;
pub mod extents;
pub mod lru;
pub mod placed;
pub mod plan;
pub mod queue;
pub mod spots;
