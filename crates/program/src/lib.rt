//! The program `qbf` as a function over a desk and two sinks: the words of a command line, carried out.
//!
//! `specs/Run` says what a run comes to, `specs/Asked` which task the words ask for, with which input, `specs/Told`
//! what stands on the output, `specs/Complete` which inputs are answered, and `specs/Words` what is said of words that
//! the system doesn't give. `specs/Work` has what private calls say on the way. A command comes to a task (`task_of` in
//! `specs/Asked`), and what a run says goes by the cases of tasks: so a new command is one line there.
#![tactic(auto)]

mod commands;
mod ending;
mod words;

pub use commands::{report, run};
pub use ending::RunEnding;
pub use words::words_of;
