// What each line of a list does and prints.
#![tactic(auto)]

pub mod boxes;
pub mod call;
pub mod start;
