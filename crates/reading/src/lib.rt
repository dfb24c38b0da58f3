//! What readers of texts have in common: why a text is refused, and tests of its words (`specs/Words`).
#![tactic(auto)]

mod refusal;

pub use refusal::{Quantity, ReadRefusal};
