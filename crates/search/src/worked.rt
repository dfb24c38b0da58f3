//! Worked values of the definitions, each proved.
ghost use Rattle.prefix.specs.declared.quant.Quant.{Quant};
ghost use Rattle.search.specs.WorkedForgetting.{WorkedForgetting};
ghost use Rattle.search.specs.WorkedHalts.{WorkedHalts};
ghost use Rattle.search.specs.WorkedLeaving.{WorkedLeaving};
ghost use Rattle.search.specs.Worked.{WorkedCounts, WorkedDue, WorkedFinds, WorkedFinishes, WorkedStops};

/// What is found and due, for rows of either side.
pub fn worked_finds()
    ensures { (pivot : Quant) → WorkedFinds pivot }
{}

/// When a decision is due, and the reduction of an initial cube.
pub fn worked_dues()
    ensures { WorkedDue }
{}

/// Counted steps, matrices and room.
pub fn worked_counts()
    ensures { WorkedCounts }
{}

/// Which finishes and reductions are live, for steps of either side.
pub fn worked_finishes()
    ensures { (pivot : Quant) → WorkedFinishes pivot }
{}

/// When a solve may stop.
pub fn worked_stops()
    ensures { WorkedStops }
{}

/// Which rows are long learned ones, how many are attached, which may be forgotten, and what forgetting leaves, for
/// rows of either side.
pub fn worked_forgetting()
    ensures { (side : Quant) → WorkedForgetting side }
{}

/// What leaves with a frame and its variables, and what is kept of older steps.
pub fn worked_leaving()
    ensures { WorkedLeaving }
{}

/// Which search a stop is told of.
pub fn worked_halts()
    ensures { WorkedHalts }
{}
