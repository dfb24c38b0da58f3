//! Lists of numbers, or none in their place, which take four bytes each where the numbers are small.
#![tactic(auto)]

mod numbers;
mod worked;

pub use numbers::Numbers;
pub use worked::{worked_moves, worked_numbers};
