// What lists are made of: numbers, fields and their tags, kinds, positions, trees, types of keys, keys and rows. All are written as bytes, and all but rows are read.
#![tactic(auto)]

pub mod bpos;
pub mod fields;
pub mod key_types;
pub mod keys;
pub mod kinds;
pub mod le;
pub mod output;
pub mod positions;
pub mod rows;
pub mod tags;
pub mod trees;
