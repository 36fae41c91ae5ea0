// What a placement asks: refusals 4 to 13.
#![tactic(auto)]

pub mod asked;
pub mod refusals;
pub mod requests;
