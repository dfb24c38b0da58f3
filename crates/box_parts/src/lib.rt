//! A box taken apart: its pointer and its allocator as fields of a struct, which owns what the box owned.
//!
//! A struct of another crate can take these fields over, and with them what they own. So a handle for C can hold a box
//! whose type C doesn't know.
#![tactic(auto)]

mod parts;

pub use parts::Parts;
