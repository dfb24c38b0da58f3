//! Texts that are written in blocks, so that a sink is called once for many words, and the lines that they are made of.
//!
//! `specs/Held` says what is passed on and what is held back, `specs/Lines` what the bytes of lines are, which the
//! writers of formulas, traces and circuits cite, and `specs/Worked` has small cases. Blocks are above `ports` and not
//! in it, so that what reads isn't proved again for a change of a writer.
#![tactic(auto)]

mod block;
mod line;
mod worked;

pub use block::Block;
pub use line::LineText;
pub use worked::{worked_blocks, worked_lines};
