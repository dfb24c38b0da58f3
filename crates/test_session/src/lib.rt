//! Tests of a session that is called command by command.
//!
//! They stand here and not in `session` since a crate with tests is proved twice.
#![tactic(auto)]

#[cfg(test)]
mod session_tests;
