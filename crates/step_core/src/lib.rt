//! The steps that a step of a derivation rests on, listed and numbered.
//!
//! `core` picks them from a derivation, the inputs first, and numbers them from 1. `specs/Cores` has the definitions,
//! and `specs/Worked` small values. It is apart from the text of a trace, as search, circuits and engine need cores and
//! stand on no device.
#![tactic(auto)]

mod gather;
mod laws;
mod listing;
mod marks;
mod numbers;
mod order;
mod worked;

pub use gather::core;
pub use laws::finishes_end_proofs;
pub use listing::{Core, CoreStep};
pub use worked::{worked_cores, worked_numbers};
