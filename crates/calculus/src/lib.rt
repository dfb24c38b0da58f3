//! The calculus: Q-resolution with its dual for cubes, under assumptions, as definitions and theorems.
//!
//! `specs/` has the definitions, by subject, and the statements of the theorems. Each theorem is the
//! contract of a function without a body. They are about definitions, until code cites these words in
//! its own contracts. `docs/CALCULUS.md` reads the definitions aloud.
//!
//! What the theorems hold the definitions to. Each of these changes was made to a copy, and makes the
//! named theorem false or the named worked value another one:
//!
//! - Reduction ignores blocking: `proofs_decide` and `end_rows_decide` are false, as 1 2 and -1 -2 under
//!   a 1, e 2, a true formula, are refuted by the steps of `worked_refutation`; `worked_rows` fails at
//!   `blocked_universal_stays` and `blocked_existential_stays`.
//! - The last falsified reduction is taken in place of the first: `plays_win` and `circuits_win` are
//!   false; `worked_first` has a proof and values for which that rule makes the matrix true.
//! - A variable that may be assumed is reduced, so that a row without pivot-type literals loses all:
//!   `end_rows_decide` is false, as the clause 1 under a 1 reduces to the empty one, and is true with 1
//!   assumed; `worked_rows` fails at `lone_universal_stays` and `lone_existential_stays`.
//! - The depth of an absent variable is 0: `prefix_laws` is false at `positive`, and `worked_rows` fails
//!   at `absent_is_last` and `absent_goes`.
//! - The reason of a propagated literal is unit in one over another variable, or in one that the value
//!   makes bad, or isn't unit at all, or has another id: `reasons_oppose` is false.
//! - Assumptions may stand with any cause (`AreTheAssumptions`): `assumption_moves` is false at `cut`, as
//!   `cuts_lose_assumptions` shows.
//! - Open literals of earlier scopes, or pivot-type ones, are allowed in a pending row, a bad row is a clean
//!   one, unit rows are quiet, a kept literal's place doesn't matter, a row is unit at the trail's own level:
//!   `worked_units` and `worked_clean_rows` fail, and most theorems of the search.
//! - A cut leaves out the literals of its own level: `cuts` and `worked_clean_rows` fail.
//! - Each step needs every earlier one (`needed`): `steps_have_cores` and `worked_cores` fail. Unused steps
//!   may stand in a proof: `worked_unused` fails. Where nothing is forced the rule says false: `worked_first`.
//! - Other limits: `worked_limits`, `limits_suffice`, `searches_end` and `gates_are_bounded`.
//!
//! No theorem asks for reduced rows: what counts reductions asks for them. Lemmas on lists for the crates of the search
//! are in `proofs/Lists`, with equal signs in `Merging` and sides in `Opposites`.
#![tactic(auto)]

mod derivations;
mod plays;
mod rows;
mod search;
mod trail;
mod verdicts;
mod weights;
mod worked;

pub use derivations::{
    additions_are_legal, changes_are_legal, drops_are_legal, inputs_may_come_first, prefixes_grow,
    removals_of_variables_are_legal, sides_are_legal, steps_have_cores,
};
pub use plays::{
    circuits_win, gates_are_bounded, gates_are_few, last_steps_decide, plays_exist,
    plays_look_back, plays_win, winning_decides,
};
pub use rows::{prefix_laws, reductions_keep_unit, reductions_stay, row_laws, value_laws};
pub use search::{
    assumptions_end, blockers_resolve, blockers_were_propagated, decisions_make_unit,
    lasts_resolve, lower_levels_make_unit, no_pivots_end, propagation_refutes, unblocked_are_clean,
};
pub use trail::{
    assumption_moves, cuts, cuts_lose_assumptions, places, reason_moves, reasons_are_unit,
    reasons_oppose, reasons_stay, trail_laws, trails_are_short,
};
pub use verdicts::{
    end_rows_decide, end_rows_give_proofs, first_values_decide, proofs_decide, relevant_ones_decide,
};
pub use weights::{limits_suffice, searches_end, steps_are_few, weight_laws};
pub use worked::{
    worked_assumptions, worked_clean_rows, worked_cores, worked_first, worked_limits, worked_model,
    worked_refutation, worked_rows, worked_truths, worked_units, worked_unused, worked_weights,
};
