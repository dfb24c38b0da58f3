//! Worked values of the definitions, each proved.
ghost use Rattle.qdimacs_out.specs.Worked.{WorkedForms, WorkedLines, WorkedReadings, WorkedTexts};

/// Words and lines with their bytes.
pub fn worked_lines()
    ensures { WorkedLines }
{}

/// Texts of formulas, and texts that are none of theirs.
pub fn worked_texts()
    ensures { WorkedTexts }
{}

/// Formulas in the form in which they are written, and others.
pub fn worked_forms()
    ensures { WorkedForms }
{}

/// What the texts of formulas are read as.
pub fn worked_readings()
    ensures { WorkedReadings }
{}
