//! Reduction, resolution and clash of rows of literals, once for clauses and cubes. A row has room for forty literals
//! in place. With room for sixteen, longer resolvents asked for memory once or twice before they were copied.
#![tactic(auto)]

mod reduction;
mod resolution;
mod worked;

use prefix::Lit;
pub use reduction::{is_reduced, reduce};
pub use resolution::{clashes, resolve};
use smallvec::SmallVec;
pub use worked::worked_depths;

/// The literals of a clause or of a cube, of which most have few.
pub type Row = SmallVec<Lit, 40>;
