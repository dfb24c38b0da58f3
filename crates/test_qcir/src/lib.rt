//! Tests of the formulas of quantified circuits.
//!
//! They stand here and not in that crate since a crate with tests is proved twice.
#![tactic(auto)]

#[cfg(test)]
mod circuits;
#[cfg(test)]
mod drawn;
#[cfg(test)]
mod qcir_tests;
#[cfg(test)]
mod reading_tests;
