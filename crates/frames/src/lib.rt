//! The open formula that commands build: scopes, frames of clauses and of variables that leave with them, groups of
//! clauses, and assumptions.
//!
//! `specs/Commands` says what each command is refused for and what it does, `specs/Fold` what a list of commands comes
//! to.
#![tactic(auto)]

mod assumptions;
mod frames;
mod groups;
mod laws;
mod lists;
mod refusal;
mod total;
mod variables;
mod worked;

pub use assumptions::Assumptions;
pub use frames::Frames;
pub use groups::Group;
pub use laws::{others_stay, refused_commands_change_nothing};
pub use refusal::FrameRefusal;
pub use worked::{worked_commands, worked_groups, worked_limits, worked_versions};
