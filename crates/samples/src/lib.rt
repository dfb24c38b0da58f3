//! Formulas that are made from a seed: one of them written, or many decided and counted.
//!
//! `specs/Samples` says which formulas these are, and what is written, and `specs/Theorems` that it is read back.
#![tactic(auto)]

mod counts;
mod laws;
mod sending;
mod worked;
mod written;

pub use counts::count_samples;
pub use laws::made_formulas_are_read;
pub use worked::worked_samples;
pub use written::write_sample;
