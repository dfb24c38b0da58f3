//! Steps.

use prefix::Var;
use rows::RowId;

/// The id of a step, which is the id of its row.
pub type StepId = RowId;

/// What a step is, with the ids of those that it rests on.
#[derive(Clone, Copy, Debug, PartialEq, Eq)]
pub enum Step {
    /// A clause of the formula.
    InputClause,
    /// An initial cube, which holds a literal of every open clause.
    InputCube,
    /// The reduction of a step, where something goes.
    Reduced(StepId),
    /// The finish of an end row: its literals over assumed variables. No step rests on it.
    Finished(StepId),
    /// The resolvent of two steps on a variable that is positive in `a` and negative in `b`.
    Resolved { a: StepId, b: StepId, pivot: Var },
}
