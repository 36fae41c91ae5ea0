// Generations: the generations of many buckets of a volume.
#![tactic(auto)]

pub mod buckets;
pub mod generations;
