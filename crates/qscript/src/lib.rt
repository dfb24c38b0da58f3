//! Reads scripts of incremental commands.
//!
//! `specs/Reads` says what each text is: its commands, and whether it ends well, is refused with a number and a line,
//! or goes beyond the limit on bytes.
#![tactic(auto)]

mod command;
mod draft;
mod laws;
mod lines;
mod reader;
mod words;
mod worked;

pub use command::{Command, NumList};
pub use laws::each_script_has_one_reading;
pub use reader::ScriptReader;
pub use worked::worked_scripts;
