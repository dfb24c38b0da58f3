//! Worked values of the definitions, each proved.
ghost use Rattle.generate.specs.Worked.{WorkedFormulas, WorkedPlaces, WorkedStates};

/// The first states of a seed, and what is drawn from them.
pub fn worked_states()
    ensures { WorkedStates }
{}

/// The places of a clause, and its literals in order.
pub fn worked_places()
    ensures { WorkedPlaces }
{}

/// Whole formulas.
pub fn worked_formulas()
    ensures { WorkedFormulas }
{}
