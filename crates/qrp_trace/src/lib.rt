//! The trace of a core as a text.
//!
//! `write_trace` writes a core in this project's profile of the QRP format (Niemetz, Preiner, Lonsing, Seidl and
//! Biere, *Resolution-based certificate extraction for QBF*, 2012). `specs/Texts` has the definitions, and
//! `specs/Worked` small values.
#![tactic(auto)]

mod text;
mod words;
mod worked;

pub use text::{greatest_variable, put_literals, write_trace};
pub use worked::{worked_gaps, worked_texts};
