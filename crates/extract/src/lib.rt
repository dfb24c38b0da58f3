//! The circuit of a core: strategy extraction.
//!
//! Balabanov and Jiang, *Unified QBF certification and its applications* (2012), for clauses and cubes at once, with
//! the first-falsified rule. `specs/Removals` has what the steps of a core remove and the rule over it, and
//! `specs/Tables` the tables of edges; `specs/Worked` has values of both.
#![tactic(auto)]

mod circuit;
mod edges;
mod index;
mod rule;
mod worked;

pub use circuit::extract;
pub use worked::{
    worked_covers, worked_edges, worked_given, worked_plays, worked_removals, worked_rules,
    worked_tables, worked_weights,
};
