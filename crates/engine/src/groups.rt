//! Commands on groups of clauses.
ghost use Rattle.std.specs.Prelude.{◌≡◌, ◌≢◌, ◌≤◌, IsOk, IfErr, OnOk, OnErr, IsOkUnless, MatchOption};
ghost use Rattle.frames.specs.Commands.{Activate, CloseGroup, Deactivate, OpenGroup, refusal_of};
ghost use Rattle.frames.specs.Fold.{returning};
ghost use Rattle.engine.specs.Counting.{with_clauses};
ghost use Rattle.engine.specs.State.{changed};

use crate::engine::Engine;
use crate::tied::{drop_group, forget_outcome, put_group};
use frames::FrameRefusal;

impl Engine {
    /// Opens the group of a number, which is made, active and without clauses, where it is new. Accepted clauses join
    /// it until it is closed.
    ///
    /// Refused, in this order, with GroupRange where the number is 0 or above `Frames::MAX_GROUP`, with GroupOpen where
    /// a group is open, with GroupFrame where a pushed frame is open, and with NoMemory.
    pub fn open_group(&mut self, group: u64) -> Result<(), FrameRefusal>
        ensures ok { OnOk result (self.new ≡ changed self.old (OpenGroup group)) }
        ensures refused { MatchOption (refusal_of self.old.formula (OpenGroup group))
            (IsOkUnless result FrameRefusal.NoMemory) (λ e. result ≡ Err e) }
        ensures err { OnErr result (self.new ≡ self.old) }
    {
        self.frames.open_group(group)?;
        forget_outcome(&mut self.search, &self.frames);
        self.verdict = None;
        Ok(())
    }

    /// Closes the open group. Refused with NoGroup where none is open; it takes no memory.
    pub fn close_group(&mut self) -> Result<(), FrameRefusal>
        ensures ok { OnOk result (self.new ≡ changed self.old CloseGroup) }
        ensures refused { MatchOption (refusal_of self.old.formula CloseGroup) (IsOk result) (λ e. result ≡ Err e) }
        ensures err { OnErr result (self.new ≡ self.old) }
    {
        self.frames.close_group()?;
        forget_outcome(&mut self.search, &self.frames);
        self.verdict = None;
        Ok(())
    }

    /// Makes the group of a number active: its clauses join the open formula, and each is counted once more. Where it
    /// is active already no clause comes or is counted, but it is a change all the same.
    ///
    /// Refused, in this order, with GroupRange where the number is 0 or above `Frames::MAX_GROUP`, with NoGroup where
    /// the group was never opened, with GroupOpen where a group is open, and with NoMemory. After want of memory rows
    /// may be detached until the next solve, and all else is as it was.
    pub fn activate(&mut self, group: u64) -> Result<(), FrameRefusal>
        ensures ok { OnOk result (self.new ≡ record (changed self.old (Activate group)) {
          counts = with_clauses (returning self.old.formula group) self.old.counts;
          kept_long = self.new.kept_long;
        }) }
        ensures refused { MatchOption (refusal_of self.old.formula (Activate group))
            (IsOkUnless result FrameRefusal.NoMemory) (λ e. result ≡ Err e) }
        ensures stays { IfErr result (λ e. e ≢ FrameRefusal.NoMemory → self.new ≡ self.old) }
        ensures err { OnErr result (self.new ≡ record self.old { kept_long = self.new.kept_long }) }
        ensures fewer { OnErr result (self.new.kept_long ≤ self.old.kept_long) }
    {
        let number = self.frames.may_turn(group)?;
        let count = put_group(&mut self.search, &self.frames, number)?;
        let _ = self.frames.activate(group);
        forget_outcome(&mut self.search, &self.frames);
        self.verdict = None;
        self.counts = self.counts.with_clauses(count);
        Ok(())
    }

    /// Makes the group of a number inactive: its clauses leave the open formula, and all goes that was learned from
    /// them. It is a change also where the group is inactive already.
    ///
    /// Refused, in this order, with GroupRange, with NoGroup and with GroupOpen, as `activate` is; it takes no memory.
    /// The time is that of going over the steps since the first of the group's clauses came in.
    pub fn deactivate(&mut self, group: u64) -> Result<(), FrameRefusal>
        ensures ok { OnOk result (self.new ≡ record (changed self.old (Deactivate group)) {
          kept_long = self.new.kept_long;
        }) }
        ensures refused { MatchOption (refusal_of self.old.formula (Deactivate group)) (IsOk result)
            (λ e. result ≡ Err e) }
        ensures err { OnErr result (self.new ≡ self.old) }
    {
        let number = self.frames.may_turn(group)?;
        drop_group(&mut self.search, &self.frames, number);
        let _ = self.frames.deactivate(group);
        forget_outcome(&mut self.search, &self.frames);
        self.verdict = None;
        Ok(())
    }
}
