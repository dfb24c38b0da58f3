//! Lists of places by number, most of which are blank in the long run: pages of them that are blank take no memory.
#![tactic(auto)]

mod bits;
mod blank;
mod page;
mod pages;
mod worked;

pub use bits::Bits;
pub use blank::Blank;
pub use pages::Pages;
pub use worked::{worked_bits, worked_pages};
