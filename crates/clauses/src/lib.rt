//! The row of a clause that is given as signed numbers.
//!
//! A reader of formulas and a list of frames take clauses so: a repeated literal counts once, a tautology has no row,
//! and a row ascends by variable. `specs/Clause` says what the row is.
#![tactic(auto)]

mod row;
mod scan;
mod worked;

pub use row::{code_of, row_of, row_of_codes};
pub use scan::{is_tautology, variables};
pub use worked::worked_clauses;
