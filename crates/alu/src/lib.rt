// The arithmetic of the 8080: bytes, flags and 16-bit numbers. Nothing here knows a register.
#![tactic(auto)]

mod accumulator;
pub mod flags;
pub mod groups;
mod logic;
pub mod sums;
pub mod words;
