// Apply: the next volume, section by section. A section is the keys of a tree, or the reserved buckets.
#![tactic(auto)]

pub mod apply;
pub mod front;
pub mod lists;
