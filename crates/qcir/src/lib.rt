//! Quantified circuits, as QCIR-14 has them: their truth, and the formula that is true where they are.
//!
//! `specs/Truth` has the truth and `specs/Translation` the formula.
#![tactic(auto)]

mod circuit;
mod formula;
mod laws;
mod matrix;
mod scopes;
mod worked;

pub use circuit::{Circuit, Gate, GateKind, GateList};
pub use formula::translate;
pub use laws::translations_decide;
pub use worked::{worked_formulas, worked_truths};
