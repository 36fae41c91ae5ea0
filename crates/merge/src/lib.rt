// One section of the next volume: the queued keys merged into the volume's, and their count. A section is the keys of a tree, or the reserved buckets.
#![tactic(auto)]

pub mod below;
pub mod chunk;
pub mod limits;
pub mod merge;
pub mod queue;
pub mod step;
