//! Worked values of the definitions, each proved.
ghost use Rattle.trim.specs.Worked.{WorkedEdges, WorkedMarks, WorkedReached, WorkedRebuilds, WorkedTrims};

/// Edges and gates at other places, and the gates that they come from.
pub fn worked_edges()
    ensures { WorkedEdges }
{}

/// What are marks of the gates that are reached, and what aren't.
pub fn worked_marks()
    ensures { WorkedMarks }
{}

/// Which gates are reached.
pub fn worked_reached()
    ensures { WorkedReached }
{}

/// New circuits of marked gates, and some that aren't.
pub fn worked_rebuilds()
    ensures { WorkedRebuilds }
{}

/// What is trimmed, and what isn't.
pub fn worked_trims()
    ensures { WorkedTrims }
{}
