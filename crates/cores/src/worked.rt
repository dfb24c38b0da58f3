//! Worked values of the definitions, each proved.
ghost use Rattle.cores.specs.Worked.{WorkedCores};
ghost use Rattle.cores.specs.WorkedTrials.{WorkedTrials};

/// Cores of groups, and lists of groups that are cores or none.
pub fn worked_cores()
    ensures { WorkedCores }
{}

/// How a trial stops, and what is tried.
pub fn worked_trials()
    ensures { WorkedTrials }
{}
