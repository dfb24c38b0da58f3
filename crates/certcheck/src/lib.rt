//! Check formulas: what says that a circuit loses.
//!
//! `specs/Check` has the clauses, and `specs/Theorems` that they are unsatisfiable exactly where the circuit wins.
#![tactic(auto)]

mod check;
mod fault;
mod given;
mod laws;
mod lost;
mod names;
mod put;
mod worked;

pub use check::{check_circuit, check_formula};
pub use fault::CheckFault;
pub use laws::{check_formulas_decide, check_rows_are_formed};
pub use worked::{worked_answers, worked_checks};
