//! Tests of the crates `rows`, `reduce` and `derive`.
//!
//! A test is proved too, and what costs is a value that owns memory in a function with many calls. So most tests are
//! tables of turns, and one function makes them all.
#![tactic(auto)]

#[cfg(test)]
mod derive_tests;
#[cfg(test)]
mod reduce_tests;
#[cfg(test)]
mod rows_tests;
