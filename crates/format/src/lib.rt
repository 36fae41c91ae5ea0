// The bytes that the Linux headers decide: alloc_v4, the entries of an extent, backpointers, generation records, and the index of fragmentation.
#![tactic(auto)]

pub mod alloc;
pub mod backpointer;
pub mod checksums;
pub mod compression;
pub mod data_types;
pub mod entries;
pub mod gens;
pub mod lru;
