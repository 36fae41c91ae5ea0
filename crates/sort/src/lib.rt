// Sort: the sorted form of a call list.
#![tactic(auto)]

pub mod form;
pub mod sort;
