// Place: the call, and the change list that it writes.
#![tactic(auto)]

pub mod change;
pub mod place;
