//! Worked values of the definitions, each proved.
ghost use Rattle.prefix.specs.declared.quant.Quant.{Quant};
ghost use Rattle.calculus.specs.Worked.{WorkedAssumptions, WorkedFirst, WorkedLimits, WorkedModel, WorkedRefutation, WorkedRows, WorkedTruths, WorkedUnused, WorkedWeights};
ghost use Rattle.calculus.specs.WorkedSearch.{WorkedCleanRows, WorkedCores, WorkedUnits};

/// Reduction, resolution and clash of small rows.
pub fn worked_rows()
    ensures { WorkedRows }
{}

/// Weights of trails over three variables.
pub fn worked_weights()
    ensures { WorkedWeights }
{}

/// The truth of small formulas.
pub fn worked_truths()
    ensures { WorkedTruths }
{}

/// A whole proof of a false formula, and its play.
pub fn worked_refutation()
    ensures { WorkedRefutation }
{}

/// A whole proof of a true formula, and its play.
pub fn worked_model()
    ensures { WorkedModel }
{}

/// An end row that is its own proof under assumptions.
pub fn worked_assumptions()
    ensures { WorkedAssumptions }
{}

/// A play in which the first falsified reduction and the last force different values, and one in which nothing is
/// forced.
pub fn worked_first()
    ensures { WorkedFirst }
{}

/// A legal list with an unused step, which is no proof.
pub fn worked_unused()
    ensures { WorkedUnused }
{}

/// Step limits, removals and a weight bound.
pub fn worked_limits()
    ensures { WorkedLimits }
{}

/// Unit, bad and quiet rows, for either side.
pub fn worked_units()
    ensures { (pivot : Quant) → WorkedUnits pivot }
{}

/// Clean rows, rows that are clean but for a literal or unit at a level, and a cut trail, for either side.
pub fn worked_clean_rows()
    ensures { (pivot : Quant) → WorkedCleanRows pivot }
{}

/// Cores of a small derivation.
pub fn worked_cores()
    ensures { WorkedCores }
{}
