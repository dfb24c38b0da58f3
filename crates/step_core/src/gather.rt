//! The core of a step.
ghost use Rattle.std.specs.Prelude.{◌≡◌, ℕ, ◌-◌, ◌<◌, ◌≤◌, List, length, slice_index_or, Contains, IfOk, IsTrue};
ghost use Rattle.prefix.specs.Literal.{Literal};
ghost use Rattle.prefix.specs.Scopes.{Scope};
ghost use Rattle.prefix.specs.Sides.{opposite};
ghost use Rattle.calculus.specs.Derivations.{RestsOn};
ghost use Rattle.derive.specs.State.{IsLegalFor, has_rows, is_live, open_clauses, side_at, why_at};
ghost use Rattle.step_core.specs.Cores.{IsFinishAt, IsNumbered, IsProofOf, core_ids, inferences_of, line_at, lines_at, number_in, numbered_by, proof_at};
ghost use Rattle.step_core.specs.Gathering.{AreCoreIds};

use crate::listing::{Core, CoreStep, Line};
use crate::marks::needed_for;
use crate::numbers::numbers_of;
use crate::order::ids_in_order;
use calculus::end_rows_give_proofs;
use derive::{Derivation, Step, StepId, steps_are_listed};
use memory::NoMemory;
use prefix::{Lit, LitList};
use std::alloc::Global;

/// The core of a live step: the steps that it rests on, at once or through others, and itself, the inputs first and
/// else as they came, numbered from 1. Where it is the finish of an end row of a legal derivation, the core is a proof
/// of the verdict under the assumptions: the one that the calculus gives for the end row.
///
/// It takes time in proportion to the ids from the oldest step of the core to the end, and to the core's literals.
/// Fails for want of memory alone.
pub fn core(alloc: Global, derivation: &Derivation, end: StepId) -> Result<Core, NoMemory>
    requires live { IsTrue (is_live derivation.now end) }
    requires rows { IsTrue (has_rows derivation.now) }
    ensures winner { IfOk result (λ c. c.winner ≡ opposite (side_at derivation.now end)) }
    ensures lines { IfOk result (λ c. c.lines ≡ lines_at derivation.now (core_ids derivation.now end)) }
    ensures numbered { IfOk result (λ c. IsNumbered c.lines) }
    ensures proof { IfOk result (λ c. (scopes : List Scope) (assumptions : List Literal) →
        IsLegalFor scopes derivation.now → IsFinishAt scopes assumptions derivation.now end →
        IsProofOf c scopes assumptions (open_clauses derivation.now)) }
    ensures list { IfOk result (λ c. (scopes : List Scope) (assumptions : List Literal) →
        IsLegalFor scopes derivation.now → IsFinishAt scopes assumptions derivation.now end →
        inferences_of c.lines ≡ proof_at derivation.now assumptions end) }
{
    let marks = needed_for(alloc, derivation, end)?;
    let ids = ids_in_order(alloc, derivation, end, &marks)?;
    let numbers = numbers_of(alloc, end, &ids, marks.len())?;
    let lines = lines_of(alloc, derivation, end, &ids, &numbers)?;
    end_rows_give_proofs();
    steps_are_listed();
    Ok(Core::new(derivation.side(end).other(), lines))
}

// The steps under these ids, with the numbers that a table has for what they rest on.
fn lines_of(
    alloc: Global,
    derivation: &Derivation,
    end: StepId,
    ids: &[StepId],
    numbers: &[usize],
) -> Result<Vec<Line>, NoMemory>
    requires rows { IsTrue (has_rows derivation.now) }
    requires live { (id : ℕ) → Contains ids.now id → IsTrue (is_live derivation.now id) }
    requires closed { (id on : ℕ) → Contains ids.now id → RestsOn (why_at derivation.now id) on → Contains ids.now on }
    requires within { (id : ℕ) → Contains ids.now id → (id ≤ end) × (end - id < length numbers.now) }
    requires numbers { (id : ℕ) → Contains ids.now id →
        slice_index_or numbers.now (end - id) 0 ≡ number_in ids.now id }
    ensures { IfOk result (λ lines. lines.items ≡ lines_at derivation.now ids.now) }
{
    let mut lines = Vec::new(alloc);
    for id in ids {
        lines.push(Line {
            lits: copied(alloc, derivation.lits(*id))?,
            step: numbered(derivation, end, numbers, *id),
        })?;
    }
    Ok(lines)
}

// Why a step stands, with the numbers that a table has for what it rests on.
fn numbered(derivation: &Derivation, end: StepId, numbers: &[usize], id: StepId) -> CoreStep
    requires live { IsTrue (is_live derivation.now id) }
    requires within { (on : ℕ) → RestsOn (why_at derivation.now id) on → (on ≤ end) × (end - on < length numbers.now) }
    ensures { (ids : List ℕ) → ((on : ℕ) → RestsOn (why_at derivation.now id) on →
        slice_index_or numbers.now (end - on) 0 ≡ number_in ids on) →
        result ≡ numbered_by ids (why_at derivation.now id) }
{
    match derivation.step(id) {
        Step::InputClause | Step::InputCube => CoreStep::Input,
        Step::Reduced(a) => CoreStep::One(numbers[end - a]),
        Step::Finished(a) => CoreStep::One(numbers[end - a]),
        Step::Resolved { a, b, pivot } => CoreStep::Two {
            positive: numbers[end - a],
            negative: numbers[end - b],
            pivot,
        },
    }
}

// A list of these literals.
fn copied(alloc: Global, lits: &[Lit]) -> Result<LitList, NoMemory>
    ensures { IfOk result (λ list. list ≡ lits.now) }
{
    Ok(LitList::from_vec(Vec::from_slice(alloc, lits)?)?)
}
