//! Worked values of the definitions, each proved.
ghost use Rattle.cover.specs.Worked.{WorkedChoices, WorkedCovers, WorkedRows};

/// Literals that are better than others, and innermost ones.
pub fn worked_choices()
    ensures { WorkedChoices }
{}

/// Literals that may stand in a cover.
pub fn worked_covers()
    ensures { WorkedCovers }
{}

/// Rows that are covers, and that are none.
pub fn worked_rows()
    ensures { WorkedRows }
{}
