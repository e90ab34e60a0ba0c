// What an instruction does: the registers, the bytes kept while it runs, the addresses and bytes of its cycles, and what its
// last state makes of the registers.
#![tactic(auto)]

pub mod bus;
mod high;
pub mod kept;
pub mod last;
mod low;
mod operations;
pub mod registers;
