//! Worked values of the definitions, each proved.
ghost use Rattle.trail.specs.Worked.{WorkedOutweighs, WorkedTrails};

/// Trails over three variables, with their weights and counts.
pub fn worked_trails()
    ensures { WorkedTrails }
{}

/// Which trails outweigh others.
pub fn worked_outweighs()
    ensures { WorkedOutweighs }
{}
