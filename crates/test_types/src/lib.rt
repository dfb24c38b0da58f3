//! Tests of the crates below the solver: prefixes, counters, ports, truth, clauses and circuits.
//!
//! They stand here and not in those crates since a crate with tests is proved twice.
#![tactic(auto)]

#[cfg(test)]
mod aig_tests;
#[cfg(test)]
mod build;
#[cfg(test)]
mod clauses_tests;
#[cfg(test)]
mod ports_tests;
#[cfg(test)]
mod prefix_tests;
#[cfg(test)]
mod steps_tests;
#[cfg(test)]
mod truth_tests;
