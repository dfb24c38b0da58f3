//! Tests of the crate `cores`.
#![tactic(auto)]

#[cfg(test)]
mod core_tests;
