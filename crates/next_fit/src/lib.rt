// Next fit: the slots of pieces, and how many buckets they need.
#![tactic(auto)]

pub mod layout;
pub mod slot;
