//! The program for a caller that holds its texts in memory, as one in C or a web page does: a command line, an input
//! and the outputs are lent.
//!
//! `specs/Words` says which words a command line has, `specs/Calls` what a call comes to, and `specs/Lent` what a desk
//! and a sink over lent memory show.
#![tactic(auto)]

mod entry;
mod lent_desk;
mod lent_sink;
mod words;
mod worked;

pub use entry::{Done, call};
pub use lent_desk::LentDesk;
pub use lent_sink::LentSink;
pub use words::words_of;
pub use worked::{worked_calls, worked_lent, worked_words};
