//! Circuits without the gates that no output is reached from.
//!
//! `specs/Trimmed` says what is reached and what trimming keeps, `specs/Marks` what the passes over the gates do, and
//! `specs/Worked` has small circuits with both. It is a crate over `aig` alone, since `extract` is under the engine,
//! which has no need of it. One pass down marks what is reached, as edges go to earlier gates alone; one pass up makes
//! the new gates. `Aig::and` finds none of these again, as equal new gates would have been equal old ones.
#![tactic(auto)]

mod circuit;
mod edges;
mod gates;
mod marks;
mod worked;

pub use circuit::trim;
pub use worked::{worked_edges, worked_marks, worked_reached, worked_rebuilds, worked_trims};
