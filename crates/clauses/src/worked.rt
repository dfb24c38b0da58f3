//! Worked values of the definitions, each proved.
ghost use Rattle.clauses.specs.Worked.{WorkedClauses};

/// The rows of clauses with repeats, with both signs of a variable, and without literals.
pub fn worked_clauses()
    ensures { WorkedClauses }
{}
