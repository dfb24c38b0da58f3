//! Worked values of the definitions, each proved.
ghost use Rattle.qrp_trace.specs.Worked.{WorkedGaps, WorkedTexts};

/// Texts of small cores.
pub fn worked_texts()
    ensures { WorkedTexts }
{}

/// Texts of cores over variables with gaps between their numbers.
pub fn worked_gaps()
    ensures { WorkedGaps }
{}
