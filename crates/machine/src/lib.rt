// The machine: a struct by value with a position inside, its one-state step, what a state asks and shows, and which records
// are well formed.
#![tactic(auto)]

pub mod cycle;
mod ending;
pub mod look;
pub mod record;
pub mod request;
pub mod row;
pub mod step;
pub mod well;
