//! What formulas are built of: rows from clauses of circuit literals, and scopes from lists of variables.
//!
//! `specs/Rows` says what the rows of clauses are, `specs/Building` what is kept of them while they come and what the
//! limits are, and `specs/NewScope` which variables a new scope may have and what it is. `generate` and `qcir` put a
//! scope behind a prefix by loops of their own: the one has a range of numbers, the other variables, and a list of
//! numbers for `add_scope` would be a copy. `qdimacs` has rows of its own, as its literals come as signed numbers.
#![tactic(auto)]

mod beyond;
mod build;
mod scope;
mod worked;

pub use beyond::Beyond;
pub use build::RowBuilder;
pub use scope::add_scope;
pub use worked::{worked_builds, worked_rows, worked_scopes};
