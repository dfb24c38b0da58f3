//! Worked values of the definitions, each proved.
ghost use Rattle.step_core.specs.Worked.{WorkedCores, WorkedNumbers};

/// The cores of steps of a small derivation, with their numbers.
pub fn worked_cores()
    ensures { WorkedCores }
{}

/// What is numbered and what isn't.
pub fn worked_numbers()
    ensures { WorkedNumbers }
{}
