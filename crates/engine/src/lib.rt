//! The engine: an incremental solver of closed quantified Boolean formulas in prenex conjunctive form.
//!
//! Commands build a formula in frames of clauses, as the crate `frames` has it, and `Engine::solve` decides it under
//! the assumptions, by the search of the crate `search`. A verdict comes with the step of its proof's last row; what is
//! learned stays for later solves, and goes with the clauses that it rests on.
//!
//! A verdict is asked for the assumptions that matter, for values of the first scope, for its proof and for a circuit
//! that certifies it.
//!
//! `specs/State` says what contracts see of an engine, `specs/Verdicts` what a verdict and a stop are, `specs/Refusals`
//! and `specs/Asks` what a verdict is asked, and `specs/Kept` how frames and search belong together.
#![tactic(auto)]

mod asks;
mod commands;
mod counts;
mod engine;
mod group_core;
mod groups;
mod looks;
mod lookup;
mod refusal;
mod tied;
mod variables;
mod verdict;
mod worked;

pub use engine::{Engine, FIRST_KEPT};
pub use group_core::CoreRefusal;
pub use refusal::AskRefusal;
pub use search::SolveStop;
pub use verdict::Verdict;
pub use worked::{
    worked_asks, worked_certificates, worked_engines, worked_first, worked_proofs, worked_refusals,
    worked_stops,
};
