//! Writes quantified Boolean formulas as QDIMACS 1.1 writes them.
//!
//! `specs/Texts` defines the text of a formula, `specs/Theorems` says what such a text is read as, and `specs/Worked`
//! has small texts.
#![tactic(auto)]

mod laws;
mod lent;
mod words;
mod worked;
mod write;

pub use laws::{read_formulas_are_writable, written_formulas_are_read};
pub use lent::{Header, write_lent};
pub use worked::{worked_forms, worked_lines, worked_readings, worked_texts};
pub use write::write_formula;
