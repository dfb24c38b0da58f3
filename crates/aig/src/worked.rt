//! Worked values of the definitions, each proved.
ghost use Rattle.aig.specs.Worked.{WorkedCircuits, WorkedFolds, WorkedGates, WorkedNumbers, WorkedSharing, WorkedStrategies};

/// The numbers of edges.
pub fn worked_numbers()
    ensures { WorkedNumbers }
{}

/// What is a gate and what is none.
pub fn worked_gates()
    ensures { WorkedGates }
{}

/// What a conjunction gives without a gate, and which edges want one.
pub fn worked_folds()
    ensures { WorkedFolds }
{}

/// Which gates a circuit may have together, and what is found again.
pub fn worked_sharing()
    ensures { WorkedSharing }
{}

/// The values of a conjunction and of an exclusive disjunction.
pub fn worked_circuits()
    ensures { WorkedCircuits }
{}

/// What a strategy makes of values, and what is a strategy and what is none.
pub fn worked_strategies()
    ensures { WorkedStrategies }
{}
