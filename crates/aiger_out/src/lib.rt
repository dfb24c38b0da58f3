//! Strategies as AIGER 1.9, in ASCII and in binary (Biere, Heljanko and Wieringa, *AIGER 1.9 and beyond*, 2011).
//!
//! `specs/Aag` says which text denotes which circuit, and `specs/Binary` which bytes do, as a reader of the format
//! would, apart from the way in which `write_aag` and `write_aig` go. `specs/Worked` and `specs/WorkedBinary` have
//! small texts and bytes with their circuits.
#![tactic(auto)]

mod gate;
mod laws;
mod line;
mod section;
mod worked;
mod write;

pub use laws::{
    bytes_denote_one_circuit, circuits_have_one_form_of_bytes, circuits_have_one_text,
    text_and_bytes_denote_one_circuit, texts_denote_one_circuit,
};
pub use worked::{
    worked_bytes, worked_deltas, worked_gate_bytes, worked_lines, worked_texts, worked_words,
};
pub use write::{write_aag, write_aig};
