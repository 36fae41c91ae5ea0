// Free space: the runs of free buckets, how many are free, whether they overlap, and the walk that takes buckets.
#![tactic(auto)]

pub mod runs;
pub mod take;
