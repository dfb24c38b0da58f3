//! Worked values of the definitions, each proved.
ghost use Rattle.prefix.specs.declared.quant.Quant.{Quant};
ghost use Rattle.clean.specs.Worked.{WorkedCleaning, WorkedReasons, WorkedReasonsLeft, WorkedSteps};

/// Steps that are reduced and reasons, for either side.
pub fn worked_reasons()
    ensures { (pivot : Quant) → WorkedReasons pivot }
{}

/// Steps that came in, for either side.
pub fn worked_steps()
    ensures { (pivot : Quant) → WorkedSteps pivot }
{}

/// Rows that are blocked, that may be cleaned and that are cleaned, for either side.
pub fn worked_cleaning()
    ensures { (pivot : Quant) → WorkedCleaning pivot }
{}

/// Reasons that are blocked, and what is left as it was, for either side.
pub fn worked_reasons_left()
    ensures { (pivot : Quant) → WorkedReasonsLeft pivot }
{}
