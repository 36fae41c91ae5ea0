// The lines of a change list, and what the program prints.
#![tactic(auto)]

pub mod blanks;
pub mod change_lines;
pub mod digits;
pub mod key_lines;
pub mod other_lines;
pub mod program;
