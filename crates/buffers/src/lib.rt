//! Buffers that a caller lends, and texts that may be longer than these.
//!
//! A text is first written into a `Draft`, which grows. Then its length is known, and it goes into the buffer where that
//! has room (`put`).
#![tactic(auto)]

mod draft;
mod putting;

pub use draft::Draft;
pub use putting::put;
