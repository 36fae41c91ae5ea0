// Release: its tables, its batch, and the call.
#![tactic(auto)]

pub mod batch;
pub mod lists;
pub mod release;
