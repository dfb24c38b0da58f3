//! The command line of `qbf`. It is a crate of its own, so that the proofs of `program` don't load those of `clap`.
#![tactic(auto)]

mod command;
mod form;
mod number;
mod read;
mod refused;
mod values;

pub use command::{Command, Input, SolveForm, Verb};
pub use read::{read_command, words_ask_for_one_command};
pub use refused::Refused;
