//! Reads quantified circuits as QCIR-14 writes them, in its prenex form with and/or gates and numbers as names.
//!
//! `specs/Reads` says what each text is: a circuit, or refused with a number and a line, or beyond a limit.
#![tactic(auto)]

mod laws;
mod read;
mod reader;
mod refusal;
mod sign;
mod worked;

pub use laws::each_text_has_one_outcome;
pub use read::read_qcir;
pub use refusal::QcirRefusal;
pub use sign::{Place, Sign, Stage};
pub use worked::worked_readings;
