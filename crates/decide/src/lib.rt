//! The next decision: which variable of the first scope that isn't all assigned, and with which sign.
#![tactic(auto)]

mod decider;
mod keys;
mod waiting;
mod worked;

pub use decider::Decider;
pub use worked::{worked_decisions, worked_memories};
