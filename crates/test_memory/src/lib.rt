//! Tests of the crate `engine` where memory is refused.
//!
//! With ample memory each call answers at once. `rt try --test --fail-alloc 1..` in this crate's folder refuses each
//! request for memory in turn, and no test may fail then either.
#![tactic(auto)]

#[cfg(test)]
mod memory_tests;
