//! Worked values of the definitions, each proved.
ghost use Rattle.decide.specs.Worked.{WorkedDecisions, WorkedMemories};

/// What may be decided, and what may not.
pub fn worked_decisions()
    ensures { WorkedDecisions }
{}

/// The signs that are remembered.
pub fn worked_memories()
    ensures { WorkedMemories }
{}
