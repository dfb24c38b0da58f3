//! Worked values of the definitions, each proved.
ghost use Rattle.qcir.specs.Worked.{WorkedFormulas, WorkedTruths};

/// The truth of small circuits.
pub fn worked_truths()
    ensures { WorkedTruths }
{}

/// The formulas of small circuits.
pub fn worked_formulas()
    ensures { WorkedFormulas }
{}
