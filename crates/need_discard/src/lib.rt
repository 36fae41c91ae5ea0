// Waiting: which buckets that wait are discarded, by their need-discard and alloc keys.
#![tactic(auto)]

pub mod discarded;
pub mod waiting;
