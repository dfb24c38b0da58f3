//! Worked values of the definitions, each proved.
ghost use Rattle.reduce.specs.Worked.{WorkedDepths};

/// Which literals go by their depths, and which rows are kept.
pub fn worked_depths()
    ensures { WorkedDepths }
{}
