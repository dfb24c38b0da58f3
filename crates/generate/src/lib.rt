//! Formulas made from a seed, to try solvers on.
//!
//! `specs/Draws` defines the numbers that are drawn, `specs/Made` the formulas, and `specs/Worked` has small values.
#![tactic(auto)]

mod clause;
mod draws;
mod formulas;
mod laws;
mod worked;

pub use draws::Draws;
pub use formulas::make;
pub use laws::made_formulas_are_formed;
pub use worked::{worked_formulas, worked_places, worked_states};
