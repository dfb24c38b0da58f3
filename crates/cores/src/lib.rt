//! The core of a false formula with groups of clauses: groups with which it is false, and without any one of which it
//! is true.
#![tactic(auto)]

mod choosing;
mod laws;
mod part;
mod trial;
mod worked;

pub use choosing::core_of;
pub use laws::{cores_are_minimal, fewer_clauses_stay_true};
pub use part::Part;
pub use trial::Question;
pub use worked::{worked_cores, worked_trials};
