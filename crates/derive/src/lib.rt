//! Derivations of clauses and cubes: input steps, reductions, resolvents and finishes, with their rows and their
//! frames.
#![tactic(auto)]

mod at_once;
mod cubes;
mod derivation;
mod dropping;
mod entry;
mod laws;
mod live;
mod new_step;
mod note;
mod outside;
mod packed;
mod removal;
mod step;
mod sweeping;
mod worked;

pub use derivation::Derivation;
pub use laws::{
    clauses_are_listed, growth_laws, prefixes_may_change, prefixes_may_grow, same_clauses_serve,
    smaller_prefixes_agree, steps_are_listed,
};
pub use step::{Step, StepId};
pub use worked::{worked_cubes, worked_inputs, worked_leaving, worked_notes, worked_tags};
