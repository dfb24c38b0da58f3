//! Tests of frames, groups and their limits.
//!
//! They stand here and not in those crates since a crate with tests is proved twice.
#![tactic(auto)]

#[cfg(test)]
mod frames_tests;
#[cfg(test)]
mod limits_tests;
