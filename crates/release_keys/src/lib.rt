// The freed buckets of a release: the tests of each, its keys, and what its rows count.
#![tactic(auto)]

pub mod alloc_keys;
pub mod allocs;
pub mod backpointers;
pub mod counts;
pub mod freed_buckets;
pub mod gen_records;
pub mod lru_keys;
pub mod need_discards;
pub mod refusals;
pub mod roots;
pub mod table;
