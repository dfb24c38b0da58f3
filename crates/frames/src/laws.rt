//! Laws of the commands.
ghost use Rattle.std.specs.Prelude.{◌≡◌, Some};
ghost use Rattle.frames.specs.declared.refusal.FrameRefusal.{FrameRefusal as Refusal};
ghost use Rattle.frames.specs.Commands.{Command, refusal_of};
ghost use Rattle.frames.specs.Fold.{ScriptState, state_after};
ghost use Rattle.frames.specs.Leaving.{OthersStay};

/// A law: a refused command changes nothing.
pub fn refused_commands_change_nothing()
    ensures { (s : ScriptState) (command : Command) (refusal : Refusal) → refusal_of s.formula command ≡ Some refusal
        → state_after s command ≡ s }
{}

/// A law: where variables are taken out of a prefix, the others keep their levels, and the old prefix extends the new
/// one.
pub fn others_stay()
    ensures { OthersStay }
{}
