//! The engine for C: a handle, and a call for each call of the engine. `include/qbf.h` has them for C.
//!
//! An export takes the engine out of its handle, calls it, and puts it back. `specs/Codes` says what the codes mean,
//! `specs/Buffers` what a buffer holds behind a call, `specs/Made` and `specs/Solved` what is made and solved,
//! `specs/Told` what is told of a verdict, `specs/Formulas` what is written of a formula, and `specs/Owned` what a
//! handle owns.
#![tactic(auto)]

mod asks;
mod code;
mod commands;
mod copied;
mod exports;
mod fill;
mod formulas;
mod handle;
mod looks;
mod reads;
mod texts;
mod worked;

pub use handle::Handle;
pub use worked::{worked_buffers, worked_codes, worked_commands, worked_told, worked_writes};
