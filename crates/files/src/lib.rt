//! Files of formulas or circuits, decided, traced, certified and checked.
//!
//! A formula, or the one of a circuit, is read, fed to an engine and solved. `specs/Inputs` says which formula a text
//! says, `specs/Solve` what the answer to a text is, `specs/Jobs` what is written for it, and `specs/Checks` what is
//! written where its certificate is checked.
#![tactic(auto)]

mod check;
mod file;
mod input;
mod job;
mod lines;
mod worked;

pub use check::run_check;
pub use file::run_file;
pub use job::Job;
pub use worked::{worked_checks, worked_circuits, worked_inputs, worked_jobs, worked_verdicts};
