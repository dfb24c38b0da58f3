//! Worked values of the definitions, each proved.
ghost use Rattle.builder.specs.Worked.{WorkedBuilds, WorkedRows, WorkedScopes};

/// The rows of clauses with constants, repeats and both signs of a variable.
pub fn worked_rows()
    ensures { WorkedRows }
{}

/// What is kept of clauses, and the limits.
pub fn worked_builds()
    ensures { WorkedBuilds }
{}

/// Scopes behind others, and what want of memory leaves.
pub fn worked_scopes()
    ensures { WorkedScopes }
{}
