//! Scripts of commands, replied to.
//!
//! A session holds an engine and takes the commands of a script one after another. `specs/State` says what a session
//! is, `specs/Replies` what the commands of a script may reply, `specs/Steps` what a session does at one of them, and
//! `specs/Scripts` what the work on a script comes to.
#![tactic(auto)]

mod lines;
mod reply;
mod script;
mod session;
mod worked;

pub use reply::{Reply, SessionStop};
pub use script::run_script;
pub use session::Session;
pub use worked::{
    worked_changes, worked_groups, worked_outcomes, worked_questions, worked_replies,
    worked_scripts, worked_steps,
};
