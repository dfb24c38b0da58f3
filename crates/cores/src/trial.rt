//! A trial: clauses that a search decides with a counter of its own.
ghost use Rattle.std.specs.Prelude.{◌≡◌, ◌++◌, List, IfOk, IfErr, drop};
ghost use Rattle.prefix.specs.Literal.{Literal};
ghost use Rattle.prefix.specs.Scopes.{IsAscending, Scope};
ghost use Rattle.calculus.specs.Rows.{Row, variables_in};
ghost use Rattle.calculus.specs.Verdicts.{AreOuter};
ghost use Rattle.derive.specs.State.{State, clauses_of};
ghost use Rattle.search.specs.Moves.{IsMatrix};
ghost use Rattle.search.specs.State.{IsResting};
ghost use Rattle.search.specs.Stops.{IsOutcome};
ghost use Rattle.cores.specs.Cores.{grouped_in};
ghost use Rattle.cores.specs.Trials.{Decides, IsStopOn};

use crate::part::Part;
use derive::StepId;
use matrix::Matrix;
use memory::NoMemory;
use prefix::{Lit, LitList, Prefix, Quant};
use search::{Outcome, Search, SolveStop};
use std::alloc::Global;
use steps::Steps;

/// What each trial is asked: whether its clauses are true under a prefix and under assumptions, and how long it may
/// search.
#[derive(Clone, Copy, Debug)]
pub struct Question<'a> {
    /// The prefix.
    pub prefix: &'a Prefix,
    /// The assumptions, of the first scope, ascending by variable.
    pub assumptions: &'a [Lit],
    /// The budget of steps of each trial.
    pub budget: u64,
    /// How often each trial may begin anew.
    pub restarts: u32,
    /// How many long learned rows may stay in each trial where they are no reasons.
    pub kept: u32,
}

// The finish of a refutation of the clauses that are kept with those of the groups from a place on, if they are false.
pub(crate) fn refuted_with(
    alloc: Global,
    search: &mut Search,
    question: &Question<'_>,
    kept: &Matrix<'_>,
    parts: &[Part<'_>],
    from: usize,
) -> Result<Option<StepId>, SolveStop>
    requires outer { AreOuter question.now.prefix.now question.now.assumptions.now }
    requires ascending { IsAscending (variables_in question.now.assumptions.now) }
    requires resting { IsResting question.now.prefix.now search.old }
    requires matrix { IsMatrix search.old.derivation (kept.now ++ grouped_in (drop from parts.now)) }
    ensures decides { IfOk result (Decides question.now.prefix.now
        (kept.now ++ grouped_in (drop from parts.now)) question.now.assumptions.now search.new.derivation) }
    ensures stop { IfErr result (IsStopOn question.now.restarts question.now.budget question.now.prefix.now
        (kept.now ++ grouped_in (drop from parts.now)) question.now.assumptions.now) }
    ensures resting { IsResting question.now.prefix.now search.new }
    ensures clauses { clauses_of search.new.derivation ≡ clauses_of search.old.derivation }
{
    let matrix = matrix_with(alloc, kept, parts, from)?;
    refuted(search, question, &matrix)
}

// The matrix of the clauses that are kept and of those of the groups from a place on.
fn matrix_with<'a>(
    alloc: Global,
    kept: &'a Matrix<'_>,
    parts: &'a [Part<'_>],
    from: usize,
) -> Result<Matrix<'a>, NoMemory>
    ensures { IfOk result (λ m. m ≡ kept.now ++ grouped_in (drop from parts.now)) }
{
    let mut matrix = same_parts(alloc, kept)?;
    for next in from..parts.len() {
        matrix.push(parts[next].clauses())?;
    }
    Ok(matrix)
}

// A matrix of the same parts.
fn same_parts<'a>(alloc: Global, kept: &'a Matrix<'_>) -> Result<Matrix<'a>, NoMemory>
    ensures { IfOk result (λ m. m ≡ kept.now) }
{
    let parts = kept.parts();
    let mut matrix = Matrix::new(alloc, parts.first);
    for part in parts.more {
        matrix.push(part)?;
    }
    Ok(matrix)
}

// The finish of a refutation of the clauses of a matrix, if they are false.
fn refuted(
    search: &mut Search,
    question: &Question<'_>,
    matrix: &Matrix<'_>,
) -> Result<Option<StepId>, SolveStop>
    requires outer { AreOuter question.now.prefix.now question.now.assumptions.now }
    requires ascending { IsAscending (variables_in question.now.assumptions.now) }
    requires resting { IsResting question.now.prefix.now search.old }
    requires matrix { IsMatrix search.old.derivation matrix.now }
    ensures decides { IfOk result (Decides question.now.prefix.now matrix.now question.now.assumptions.now
        search.new.derivation) }
    ensures stop { IfErr result (IsStopOn question.now.restarts question.now.budget question.now.prefix.now matrix.now
        question.now.assumptions.now) }
    ensures resting { IsResting question.now.prefix.now search.new }
    ensures clauses { clauses_of search.new.derivation ≡ clauses_of search.old.derivation }
{
    let mut steps = Steps::new(question.budget);
    let outcome = search.solve(
        question.prefix,
        matrix,
        question.assumptions,
        question.restarts,
        question.kept,
        &mut steps,
    )?;
    Ok(refutation_of(&outcome))
}

// The finish by which clauses are false, if they are.
fn refutation_of(outcome: &Outcome) -> Option<StepId>
    ensures { (scopes : List Scope) (clauses : List Row) (assumptions : List Literal) (d : State)
        → IsOutcome scopes clauses assumptions d outcome.now → Decides scopes clauses assumptions d result }
{
    match outcome.loser {
        Quant::Exists => Some(outcome.end),
        Quant::Forall => None,
    }
}
