//! Groups are tried one after the other.
ghost use Rattle.std.specs.Prelude.{◌≡◌, ◌≤◌, ◌<◌, ◌+◌, ◌∷◌, ◌++◌, [], ℕ, List, Contains, IfOk, IfErr, IfSome, IsTrue, OnOk, drop, is_some, length};
ghost use Rattle.std.specs.List.{AllByRecursion};
ghost use Rattle.prefix.specs.Scopes.{IsAscending, all_variables};
ghost use Rattle.calculus.specs.Rows.{IsRow, Row, variables_in};
ghost use Rattle.calculus.specs.Verdicts.{AreOuter};
ghost use Rattle.derive.specs.Dropping.{Falls, has_tag};
ghost use Rattle.derive.specs.State.{clauses_of, is_live};
ghost use Rattle.search.specs.State.{IsResting};
ghost use Rattle.cores.specs.Cores.{core_numbers, grouped_in};
ghost use Rattle.cores.specs.Trials.{Decides, IsRefutation, IsStopOn, IsTrialStop, IsTrying};

use crate::part::Part;
use crate::trial::{Question, refuted_with};
use calculus::{end_rows_give_proofs, proofs_decide};
use derive::{StepId, same_clauses_serve, steps_are_listed};
use matrix::Matrix;
use memory::NoMemory;
use prefix::{LitList, Prefix, Var};
use search::{Search, SolveStop, resting_grows};
use std::alloc::Global;

/// The numbers of the groups of the core: one group after the other is taken out, and kept if the other clauses, with
/// those of the groups that are kept and of the ones still to be tried, are true under the assumptions. Where the
/// formula of all clauses is false under them, it is so with the groups of the core, and true without any one of these.
///
/// A group on which the last refutation doesn't rest needs no trial. One search decides all trials, each with a counter
/// of its own of the question's budget, and what it learned from clauses that stay is kept between them. `room` is no
/// less than the number of any variable of the prefix.
///
/// Spent comes only where a step is due in a trial and its budget is spent, which is never so where the budget suffices
/// for the variables and the restarts.
pub fn core_of(
    alloc: Global,
    question: &Question<'_>,
    room: usize,
    others: &[LitList],
    parts: &[Part<'_>],
) -> Result<Vec<u32>, SolveStop>
    requires outer { AreOuter question.now.prefix.now question.now.assumptions.now }
    requires ascending { IsAscending (variables_in question.now.assumptions.now) }
    requires room { (x : ℕ) → Contains (all_variables question.now.prefix.now) x → x ≤ room }
    requires others { AllByRecursion (IsRow question.now.prefix.now) others.now }
    requires parts { AllByRecursion (IsRow question.now.prefix.now) (grouped_in parts.now) }
    ensures ok { IfOk result (λ core. core.items
        ≡ core_numbers question.now.assumptions.now question.now.prefix.now others.now parts.now) }
    ensures stop { IfErr result (IsTrialStop question.now.restarts question.now.budget question.now.prefix.now
        others.now parts.now question.now.assumptions.now) }
{
    let mut search = Search::new(alloc);
    core_in(alloc, &mut search, question, room, others, parts)
}

// The numbers of the groups of a core, found by a search that has no clauses yet.
fn core_in(
    alloc: Global,
    search: &mut Search,
    question: &Question<'_>,
    room: usize,
    others: &[LitList],
    parts: &[Part<'_>],
) -> Result<Vec<u32>, SolveStop>
    requires outer { AreOuter question.now.prefix.now question.now.assumptions.now }
    requires ascending { IsAscending (variables_in question.now.assumptions.now) }
    requires room { (x : ℕ) → Contains (all_variables question.now.prefix.now) x → x ≤ room }
    requires others { AllByRecursion (IsRow question.now.prefix.now) others.now }
    requires parts { AllByRecursion (IsRow question.now.prefix.now) (grouped_in parts.now) }
    requires resting { IsResting [] search.old }
    requires none { clauses_of search.old.derivation ≡ [] }
    ensures ok { IfOk result (λ core. core.items
        ≡ core_numbers question.now.assumptions.now question.now.prefix.now others.now parts.now) }
    ensures stop { IfErr result (IsTrialStop question.now.restarts question.now.budget question.now.prefix.now
        others.now parts.now question.now.assumptions.now) }
{
    fill(search, question.prefix, room, others, parts)?;
    let mut kept = Matrix::new(alloc, others);
    let mut core = Vec::new(alloc);
    try_all(alloc, search, question, &mut kept, &mut core, parts)?;
    Ok(core)
}

// Tries all groups, and keeps those that are needed.
fn try_all<'a>(
    alloc: Global,
    search: &mut Search,
    question: &Question<'_>,
    kept: &mut Matrix<'a>,
    core: &mut Vec<u32>,
    parts: &[Part<'a>],
) -> Result<(), SolveStop>
    requires outer { AreOuter question.now.prefix.now question.now.assumptions.now }
    requires ascending { IsAscending (variables_in question.now.assumptions.now) }
    requires parts { AllByRecursion (IsRow question.now.prefix.now) (grouped_in parts.now) }
    requires trying { IsTrying question.now.prefix.now search.old kept.old parts.now }
    requires none { core.old.items ≡ [] }
    ensures ok { OnOk result (core.new.items
        ≡ core_numbers question.now.assumptions.now question.now.prefix.now kept.old parts.now) }
    ensures stop { IfErr result (IsTrialStop question.now.restarts question.now.budget question.now.prefix.now
        kept.old parts.now question.now.assumptions.now) }
{
    let mut refutation = None;
    for place in 0..parts.len() {
        refutation = refuted_without(alloc, search, question, kept, parts, place, refutation)?;
        if refutation.is_some() {
            continue;
        }
        let part = &parts[place];
        search.add_clauses(question.prefix, part.clauses(), 0)?;
        keep(kept, core, part)?;
    }
    Ok(())
}

// Puts the other clauses into a new search, and those of each group under a tag of its own.
fn fill(
    search: &mut Search,
    prefix: &Prefix,
    room: usize,
    others: &[LitList],
    parts: &[Part<'_>],
) -> Result<(), NoMemory>
    requires room { (x : ℕ) → Contains (all_variables prefix.now) x → x ≤ room }
    requires others { AllByRecursion (IsRow prefix.now) others.now }
    requires parts { AllByRecursion (IsRow prefix.now) (grouped_in parts.now) }
    requires resting { IsResting [] search.old }
    requires none { clauses_of search.old.derivation ≡ [] }
    ensures { OnOk result (IsTrying prefix.now search.new others.now parts.now) }
{
    make_room(search, prefix, room)?;
    search.add_clauses(prefix, others, 0)?;
    put_groups(search, prefix, parts)
}

// Makes room for the variables of the prefix in a new search.
fn make_room(search: &mut Search, prefix: &Prefix, room: usize) -> Result<(), NoMemory>
    requires room { (x : ℕ) → Contains (all_variables prefix.now) x → x ≤ room }
    requires resting { IsResting [] search.old }
    ensures resting { OnOk result (IsResting prefix.now search.new) }
    ensures clauses { clauses_of search.new.derivation ≡ clauses_of search.old.derivation }
{
    resting_grows();
    // The variables are in range.
    let _valid = prefix.scopes();
    match Var::new(room.min(Var::MAX as usize) as u32) {
        Some(greatest) => search.reserve(greatest),
        None => Ok(()),
    }
}

// Puts the clauses of groups in, the last group first, each under the number of groups from it on as its tag.
fn put_groups(search: &mut Search, prefix: &Prefix, parts: &[Part<'_>]) -> Result<(), NoMemory>
    requires resting { IsResting prefix.now search.old }
    requires parts { AllByRecursion (IsRow prefix.now) (grouped_in parts.now) }
    ensures { (others : List Row) → IsTrying prefix.now search.old others [] →
        OnOk result (IsTrying prefix.now search.new others parts.now) }
{
    for left in 0..parts.len() {
        let part = &parts[parts.len() - 1 - left];
        search.add_clauses(prefix, part.clauses(), left + 1)?;
    }
    Ok(())
}

// Takes a group out, and answers the finish of a refutation of what is left, if that is false. A refutation that rests
// on none of the group's clauses stays; else what is left is tried.
fn refuted_without(
    alloc: Global,
    search: &mut Search,
    question: &Question<'_>,
    kept: &Matrix<'_>,
    parts: &[Part<'_>],
    place: usize,
    refutation: Option<StepId>,
) -> Result<Option<StepId>, SolveStop>
    requires outer { AreOuter question.now.prefix.now question.now.assumptions.now }
    requires ascending { IsAscending (variables_in question.now.assumptions.now) }
    requires place { place < length parts.now }
    requires trying { IsTrying question.now.prefix.now search.old kept.now (drop place parts.now) }
    requires refuted { IfSome refutation (IsRefutation question.now.prefix.now
        (kept.now ++ grouped_in (drop place parts.now)) question.now.assumptions.now search.old.derivation) }
    ensures trying { OnOk result (IsTrying question.now.prefix.now search.new kept.now (drop (place + 1) parts.now)) }
    ensures decides { IfOk result (Decides question.now.prefix.now
        (kept.now ++ grouped_in (drop (place + 1) parts.now)) question.now.assumptions.now search.new.derivation) }
    ensures stop { IfErr result (IsStopOn question.now.restarts question.now.budget question.now.prefix.now
        (kept.now ++ grouped_in (drop (place + 1) parts.now)) question.now.assumptions.now) }
{
    // For the proof: the prefix is a valid one, and a finish of a legal derivation decides.
    let _valid = question.prefix.scopes();
    end_rows_give_proofs();
    proofs_decide();
    same_clauses_serve();
    steps_are_listed();
    let frame = parts.len() - place;
    let stays = is_beside(search, refutation, frame);
    search.drop_frame(frame);
    if stays {
        return Ok(refutation);
    }
    refuted_with(alloc, search, question, kept, parts, place + 1)
}

// Whether there is a refutation, and it stays where a frame is dropped.
fn is_beside(search: &Search, refutation: Option<StepId>, frame: usize) -> bool
    requires { IfSome refutation (λ end. IsTrue (is_live search.now.derivation end)) }
    ensures some { IsTrue result → IsTrue (is_some refutation) }
    ensures stays { IsTrue result → IfSome refutation (λ end.
        Falls (has_tag frame) search.now.derivation.notes end → ⊥) }
{
    let derivation = search.derivation();
    // What falls with a frame has it or a later one as its tag.
    let _from = derivation.frame_from(frame);
    match refutation {
        Some(end) => derivation.tag(end) < frame,
        None => false,
    }
}

// Keeps a group: its clauses come behind those that are kept, and its number behind the others of the core.
fn keep<'a>(kept: &mut Matrix<'a>, core: &mut Vec<u32>, part: &Part<'a>) -> Result<(), NoMemory>
    ensures clauses { OnOk result (kept.new ≡ kept.old ++ part.now.clauses) }
    ensures number { OnOk result (core.new.items ≡ core.old.items ++ part.now.number ∷ []) }
{
    kept.push(part.clauses())?;
    core.push(part.number())?;
    Ok(())
}
