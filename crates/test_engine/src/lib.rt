//! Tests of the crates `step_core`, `qrp_trace`, `extract` and `engine`.
#![tactic(auto)]

#[cfg(test)]
mod engine_tests;
#[cfg(test)]
mod extract_tests;
#[cfg(test)]
mod trace_tests;
