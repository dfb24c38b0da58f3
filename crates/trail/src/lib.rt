//! The assignment trail: literals in the order of their assignment, with values, places, decision levels and causes.
#![tactic(auto)]

mod allowed;
mod entry;
mod finished;
mod spots;
mod stopped;
mod tally;
mod trail;
mod why;
mod worked;

pub use stopped::Stopped;
pub use trail::Trail;
pub use why::Why;
pub use worked::{worked_outweighs, worked_trails};
