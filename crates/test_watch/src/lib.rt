//! Tests of the crate `watch`: tables of moves, which one function makes, and moves that are drawn.
#![tactic(auto)]

#[cfg(test)]
mod watch_tests;
