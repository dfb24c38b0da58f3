//! Worked values of the definitions, each proved.
ghost use Rattle.watch.specs.Worked.{WorkedLists, WorkedPairs};

/// Typed pairs over four variables, and what literals and pairs are under two assignments.
pub fn worked_pairs()
    ensures { WorkedPairs }
{}

/// Names of lists, marks of rows, and a watch that is told of cuts.
pub fn worked_lists()
    ensures { WorkedLists }
{}
