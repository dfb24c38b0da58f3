//! The search: conflict-driven clause and cube learning on one formula, from a trail at rest to one at rest.
#![tactic(auto)]

mod attaching;
mod changing;
mod forgetting;
mod leaving;
mod lessons;
mod outcome;
mod propagating;
mod search;
mod solving;
mod turns;
mod watching;
mod worked;

pub use changing::resting_grows;
pub use outcome::{Outcome, SolveStop};
pub use search::Search;
pub use worked::{
    worked_counts, worked_dues, worked_finds, worked_finishes, worked_forgetting, worked_halts,
    worked_leaving, worked_stops,
};
