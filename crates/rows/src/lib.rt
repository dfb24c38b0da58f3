//! An arena of rows (clauses and cubes) with ids, none of which is given twice unless it is taken back, and eight link
//! fields a row.
#![tactic(auto)]

mod blocks;
mod places;
mod rows;
mod slots;
mod spots;
mod table;
mod worked;

pub use blocks::ThreeLinks;
pub use rows::{RowId, Rows};
pub use worked::worked_slots;
