//! Worked values of the definitions, each proved.
ghost use Rattle.frames.specs.Worked.{WorkedCommands, WorkedLimits, WorkedVersions};
ghost use Rattle.frames.specs.WorkedGroups.{WorkedGroups};

/// Frames, assumptions, refusals and verdicts after a few commands.
pub fn worked_commands()
    ensures { WorkedCommands }
{}

/// Variables and assumptions that leave with their frame, or stay.
pub fn worked_versions()
    ensures { WorkedVersions }
{}

/// Groups that are opened, closed, made active and inactive, and what refuses that.
pub fn worked_groups()
    ensures { WorkedGroups }
{}

/// The limits, and what meets them exactly.
pub fn worked_limits()
    ensures { WorkedLimits }
{}
