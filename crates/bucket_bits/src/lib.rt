// 65,536 bits, one for each bucket.
#![tactic(auto)]

pub mod marks;
