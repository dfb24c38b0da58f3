//! Tests of the crates `pages` and `short_numbers`.
#![tactic(auto)]

#[cfg(test)]
mod bits_tests;
#[cfg(test)]
mod numbers_tests;
#[cfg(test)]
mod pages_tests;
