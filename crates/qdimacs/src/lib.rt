//! Reads quantified Boolean formulas as QDIMACS 1.1 writes them.
//!
//! `specs/Reads` says what each text is: a formula, or refused with a number and a line, or beyond a limit. Lemmas on
//! lists for readers and writers are in `proofs/Lists`, with codes and numbers of literals in `Codes`.
#![tactic(auto)]

mod clause_rows;
mod laws;
mod read;
mod reader;
mod refusal;
mod sets;

pub use laws::each_text_has_one_outcome;
pub use read::read_formula;
pub use sets::{Row, Sets};
