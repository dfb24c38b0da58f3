//! Worked values of the definitions, each proved.
ghost use Rattle.qbf_c.specs.Worked.{WorkedBuffers, WorkedCodes, WorkedCommands};
ghost use Rattle.qbf_c.specs.WorkedTold.{WorkedTold, WorkedWrites};

/// Codes of refusals and verdicts, and what numbers stand for.
pub fn worked_codes()
    ensures { WorkedCodes }
{}

/// What a buffer holds behind a call.
pub fn worked_buffers()
    ensures { WorkedBuffers }
{}

/// What the code of a command says, of a call that makes an engine, and of a solve that stops.
pub fn worked_commands()
    ensures { WorkedCommands }
{}

/// What an engine's counts allow, and what is told of a verdict: circuits, traces and check formulas.
pub fn worked_told()
    ensures { WorkedTold }
{}

/// What the code of a formula that is written says.
pub fn worked_writes()
    ensures { WorkedWrites }
{}
