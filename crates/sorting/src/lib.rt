// The fields of a list by section and position: a section's keys, their places in order, the last at each position, and whether two stand at one.
#![tactic(auto)]

pub mod bound;
pub mod entries;
pub mod last;
pub mod places;
pub mod repeats;
pub mod sort;
pub mod twice;
