//! A formula, loaded into an engine and solved, and what is told of its verdict.
//!
//! `specs/Terms` says on what terms a solve is made, `specs/Standing` what commands come to that build a formula and
//! decide it, `specs/Feeding` what an engine holds that was fed with one, `specs/Decisions` what a solve comes to,
//! `specs/Answers` what the answer to a formula is, `specs/Entries` what is told of a search that stopped, and
//! `specs/Outside` what a call that reads an input and replies to it does to the outside. `specs/Traces` and
//! `specs/Certificates` say what the trace and the circuit of a verdict are. A verdict has one type for each thing that
//! is known of it: its loser and end (`search::Outcome`), its truth and end (`engine::Verdict`), that or what a stopped
//! search tells (`Decision`), its line and status (`Answer`).
#![tactic(auto)]

mod answer;
mod decision;
mod ending;
mod feed;
mod formula;
mod lines;
mod worked;

pub use answer::Answer;
pub use decision::{Decision, put_told};
pub use ending::Ending;
pub use formula::{decide, decide_formula, engine_of, engine_with};
pub use lines::{write, write_answer, write_circuit, write_core};
pub use worked::{worked_answers, worked_certificates, worked_decisions, worked_traces};
