//! Worked values of the definitions, each proved.
ghost use Rattle.ports.specs.Worked.{WorkedFaults, WorkedReads, WorkedSteady, WorkedWrites};

/// Counts of faults that rose, and such as didn't.
pub fn worked_faults()
    ensures { WorkedFaults }
{}

/// Desks whose calls don't fail, and such as may.
pub fn worked_steady()
    ensures { WorkedSteady }
{}

/// Reads of no byte that are the end of an input, and such as aren't.
pub fn worked_reads()
    ensures { WorkedReads }
{}

/// Room for bytes, and bytes that are flushed.
pub fn worked_writes()
    ensures { WorkedWrites }
{}
