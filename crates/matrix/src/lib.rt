//! The clauses of a formula that stand in several lists, lent.
#![tactic(auto)]

mod matrix;

pub use self::matrix::{Matrix, Parts};
