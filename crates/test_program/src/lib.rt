//! Tests of the whole program: runs over a desk and two sinks in memory.
//!
//! They stand here and not in `program` since a crate with tests is proved twice.
#![tactic(auto)]

#[cfg(test)]
mod run_tests;
