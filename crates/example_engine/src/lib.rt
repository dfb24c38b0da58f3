//! The engine, called from a crate of one's own: `docs/LIBRARY.md` reads it line by line.
//!
//! `specs/Answers` says what an answer to a formula is, and `specs/Differing` has a formula.
#![tactic(auto)]

mod answer;
mod differ;

pub use answer::{Answer, decide};
pub use differ::differ_from_one;
