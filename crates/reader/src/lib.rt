// The readers of call lists, volumes and change lists: refusals 2, 22 and 3, the head, and a table of where each field stands.
#![tactic(auto)]

pub mod answer;
pub mod arrange;
pub mod asked;
pub mod call;
pub mod call_kinds;
pub mod change;
pub mod head;
pub mod key;
pub mod keys;
pub mod limits;
pub mod listed;
pub mod listed_keys;
pub mod named_field;
pub mod order;
pub mod piece;
pub mod pieces;
pub mod read_list;
pub mod refusal;
pub mod reserved_buckets;
pub mod roots;
pub mod skip;
pub mod survey;
pub mod table;
