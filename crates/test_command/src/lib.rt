//! Tests of the words of the command line.
//!
//! They stand here and not in those crates since a crate with tests is proved twice.
#![tactic(auto)]

#[cfg(test)]
mod command_tests;
