//! Tests of the formulas that say that a circuit loses, and of circuits that are trimmed.
//!
//! They stand here and not in those crates since a crate with tests is proved twice.
#![tactic(auto)]

#[cfg(test)]
mod certcheck_tests;
#[cfg(test)]
mod conjunctions;
#[cfg(test)]
mod games;
#[cfg(test)]
mod gates;
#[cfg(test)]
mod trim_tests;
