//! Tests of `calls`: a formula, a script, buffers that are too short, and a line that isn't UTF-8.
#![tactic(auto)]

#[cfg(test)]
mod call_tests;
