//! The law of made formulas, proved.
ghost use Rattle.samples.specs.Theorems.{MadeRead};

/// What is written is read back: the text of each made formula is read as that formula.
pub fn made_formulas_are_read()
    ensures made { MadeRead }
{}
