//! Worked values of the definitions, each proved.
ghost use Rattle.samples.specs.Worked.{WorkedSamples};

/// The first formulas from a seed on, with their truths, their counts and what is written of them.
pub fn worked_samples()
    ensures { WorkedSamples }
{}
