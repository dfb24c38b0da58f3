//! Worked values of the definitions, each proved.
ghost use Rattle.session.specs.Worked.{WorkedReplies};
ghost use Rattle.session.specs.WorkedAsks.{WorkedChanges, WorkedQuestions};
ghost use Rattle.session.specs.WorkedGroups.{WorkedGroups};
ghost use Rattle.session.specs.WorkedOutcomes.{WorkedOutcomes};
ghost use Rattle.session.specs.WorkedScripts.{WorkedScripts};
ghost use Rattle.session.specs.WorkedSteps.{WorkedSteps};

/// Replies to commands, allowed ones and others.
pub fn worked_replies()
    ensures { WorkedReplies }
{}

/// Which reply comes to a command, and what is left of a session.
pub fn worked_steps()
    ensures { WorkedSteps }
{}

/// What the work on a script comes to.
pub fn worked_scripts()
    ensures { WorkedScripts }
{}

/// What accepted changes lead to, as the next solve tells.
pub fn worked_changes()
    ensures { WorkedChanges }
{}

/// How questions of a verdict are replied to.
pub fn worked_questions()
    ensures { WorkedQuestions }
{}

/// Which reply comes to the commands of groups, and what they leave.
pub fn worked_groups()
    ensures { WorkedGroups }
{}

/// What a step leaves on a sink and in an engine.
pub fn worked_outcomes()
    ensures { WorkedOutcomes }
{}
