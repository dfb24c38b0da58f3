//! Tests of the crates that read and write texts: words, formulas, scripts and circuits.
//!
//! They stand here and not in those crates since a crate with tests is proved twice.
#![tactic(auto)]

#[cfg(test)]
mod aiger_out_tests;
#[cfg(test)]
mod build;
#[cfg(test)]
mod generate_tests;
#[cfg(test)]
mod lexer_tests;
#[cfg(test)]
mod qdimacs_out_tests;
#[cfg(test)]
mod qdimacs_tests;
#[cfg(test)]
mod qscript_tests;
#[cfg(test)]
mod sets_tests;
