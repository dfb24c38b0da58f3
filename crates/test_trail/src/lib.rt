//! Tests of the crates `trail` and `decide`: tables of turns, which one function makes.
#![tactic(auto)]

#[cfg(test)]
mod decide_tests;
#[cfg(test)]
mod trail_tests;
