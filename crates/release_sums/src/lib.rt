// What the requests of a release free of each bucket.
#![tactic(auto)]

pub mod requests;
pub mod sums;
