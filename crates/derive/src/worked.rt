//! Worked values of the definitions, each proved.
ghost use Rattle.derive.specs.Worked.{WorkedCubes, WorkedInputs, WorkedLeaving, WorkedNotes, WorkedTags};

/// Initial cubes that miss a clause, and what goes with them.
pub fn worked_cubes()
    ensures { WorkedCubes }
{}

/// Clauses that come in at once, their reductions, and what is taken back.
pub fn worked_inputs()
    ensures { WorkedInputs }
{}

/// What names a variable outside a prefix, and what goes with it.
pub fn worked_leaving()
    ensures { WorkedLeaving }
{}

/// The tags of steps: the greatest frame of what they rest on.
pub fn worked_tags()
    ensures { WorkedTags }
{}

/// What four numbers keep of a step.
pub fn worked_notes()
    ensures { WorkedNotes }
{}
