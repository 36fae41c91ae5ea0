// The accounting of placements, releases and discards: their rows, and what a placement counts of its pieces.
#![tactic(auto)]

pub mod counters;
pub mod discarded;
pub mod placement;
pub mod released;
pub mod tally;
