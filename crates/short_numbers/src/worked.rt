//! Worked values of the definitions, each proved.
ghost use Rattle.short_numbers.specs.Worked.{WorkedMoves, WorkedNumbers};

/// What the short numbers and the long ones of a list stand for.
pub fn worked_numbers()
    ensures { WorkedNumbers }
{}

/// Last numbers that come into the place of others.
pub fn worked_moves()
    ensures { WorkedMoves }
{}
