//! Tests of the crate `example_engine`.
#![tactic(auto)]

#[cfg(test)]
mod example_tests;
