// The schedule of events: whether it is in order, and the levels at a state.
#![tactic(auto)]

mod event;
pub mod levels;
pub mod order;
