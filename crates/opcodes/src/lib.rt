// The opcodes of the 8080: which cycles each has, and what a cycle is.
#![tactic(auto)]

pub mod condition;
pub mod cycle;
pub mod entry;
pub mod table;
