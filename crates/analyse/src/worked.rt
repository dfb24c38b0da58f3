//! Worked values of the definitions, each proved.
ghost use Rattle.prefix.specs.declared.quant.Quant.{Quant};
ghost use Rattle.analyse.specs.Worked.{WorkedLessons, WorkedLevels};

/// Levels at which a row is to be unit, for either side.
pub fn worked_levels()
    ensures { (pivot : Quant) → WorkedLevels pivot }
{}

/// Lessons, for either side.
pub fn worked_lessons()
    ensures { (pivot : Quant) → WorkedLessons pivot }
{}
