// The lookup of buckets' generations in the records of tree 14: of one bucket, and of many in one walk.
#![tactic(auto)]

pub mod joint;
pub mod lookup;
pub mod records;
