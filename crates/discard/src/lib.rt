// Discard: buckets that wait go back to the free pool.
#![tactic(auto)]

pub mod batch;
pub mod changes;
pub mod discard;
pub mod runs;
