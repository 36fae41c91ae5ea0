// The fields of a change list that more than one call writes: keys without a value, LRU keys, roots, the end.
#![tactic(auto)]

pub mod batch_end;
pub mod lru_keys;
pub mod new_keys;
pub mod root_fields;
