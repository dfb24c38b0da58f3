//! Commands that change the formula.
ghost use Rattle.std.specs.Prelude.{◌≡◌, ◌≢◌, ◌≤◌, ◌<◌, None, IsOk, IfErr, OnOk, OnErr, IsOkUnless, MatchOption, map, vec_len, vec_capacity};
ghost use Rattle.prefix.specs.Literal.{signed_number};
ghost use Rattle.truth.specs.Formed.{IsClauseOver};
ghost use Rattle.frames.specs.Commands.{AddClause, AddScope, AddVariable, Assume, Pop, Push, refusal_of};
ghost use Rattle.engine.specs.Counting.{with_clause};
ghost use Rattle.engine.specs.Given.{MayBeGiven, numbers_of};
ghost use Rattle.engine.specs.State.{changed, forgotten};

use crate::engine::Engine;
use crate::tied::{Given, drop_top, forget_outcome, put_clause};
use crate::variables::variable_for;
use calculus::prefixes_grow;
use derive::StepId;
use frames::{FrameRefusal, Frames};
use memory::NoMemory;
use prefix::{LitList, Quant};
use search::resting_grows;

impl Engine {
    /// Puts in a scope without variables as number `at`, or as the last; scopes from there on move up by one.
    ///
    /// Refused, in this order, with AssumptionsHeld where an assumption stands, as `Prefix::add_scope` refuses it, and
    /// with NoMemory.
    pub fn scope(&mut self, quant: Quant, at: Option<u64>) -> Result<(), FrameRefusal>
        ensures ok { OnOk result (self.new ≡ changed self.old (AddScope quant at)) }
        ensures refused { MatchOption (refusal_of self.old.formula (AddScope quant at))
            (IsOkUnless result FrameRefusal.NoMemory) (λ e. result ≡ Err e) }
        ensures err { OnErr result (self.new ≡ self.old) }
    {
        self.frames.scope(quant, at)?;
        prefixes_grow();
        resting_grows();
        forget_outcome(&mut self.search, &self.frames);
        self.verdict = None;
        Ok(())
    }

    /// Puts the variable of number `var` into scope number `scope`.
    ///
    /// Refused, in this order, with AssumptionsHeld where an assumption stands, as `Prefix::add_var` refuses it, and
    /// with NoMemory.
    pub fn var(&mut self, var: u64, scope: u64) -> Result<(), FrameRefusal>
        ensures ok { OnOk result (self.new ≡ changed self.old (AddVariable var scope)) }
        ensures refused { MatchOption (refusal_of self.old.formula (AddVariable var scope))
            (IsOkUnless result FrameRefusal.NoMemory) (λ e. result ≡ Err e) }
        ensures err { OnErr result (self.new ≡ self.old) }
    {
        let v = variable_for(&self.frames, var, scope)?;
        self.search.reserve(v)?;
        self.frames.var(var, scope)?;
        prefixes_grow();
        resting_grows();
        forget_outcome(&mut self.search, &self.frames);
        self.verdict = None;
        Ok(())
    }

    /// Puts a clause into the open group, or else into the top frame, given by signed numbers as QDIMACS 1.1 writes
    /// literals.
    ///
    /// Refused, in this order, with UnknownVar where a number's variable isn't in the prefix, with Limit where the
    /// clause is no tautology and goes beyond `Frames::MAX_CLAUSES` or `Frames::MAX_LITERALS`, and with NoMemory. After
    /// want of memory rows may be detached until the next solve, and all else is as it was.
    pub fn clause(&mut self, lits: &[i64]) -> Result<(), FrameRefusal>
        ensures ok { OnOk result (self.new ≡ record (changed self.old (AddClause lits.now)) {
          counts = with_clause self.old.counts;
          kept_long = self.new.kept_long;
        }) }
        ensures refused { MatchOption (refusal_of self.old.formula (AddClause lits.now))
            (IsOkUnless result FrameRefusal.NoMemory) (λ e. result ≡ Err e) }
        ensures stays { IfErr result (λ e. e ≢ FrameRefusal.NoMemory → self.new ≡ self.old) }
        ensures err { OnErr result (self.new ≡ record self.old { kept_long = self.new.kept_long }) }
        ensures fewer { OnErr result (self.new.kept_long ≤ self.old.kept_long) }
    {
        self.put(Given::Numbers(lits))
    }

    /// Puts a row into the open group, or else into the top frame: the clause of its literals, which moves in and isn't
    /// sorted again. It is refused as `clause` refuses that clause, and leaves what that leaves.
    pub fn row(&mut self, row: LitList) -> Result<(), FrameRefusal>
        requires { IsClauseOver self.old.formula.scopes row }
        ensures ok { OnOk result (self.new ≡ record (changed self.old (AddClause (map signed_number row))) {
          counts = with_clause self.old.counts;
          kept_long = self.new.kept_long;
        }) }
        ensures refused { MatchOption (refusal_of self.old.formula (AddClause (map signed_number row)))
            (IsOkUnless result FrameRefusal.NoMemory) (λ e. result ≡ Err e) }
        ensures stays { IfErr result (λ e. e ≢ FrameRefusal.NoMemory → self.new ≡ self.old) }
        ensures err { OnErr result (self.new ≡ record self.old { kept_long = self.new.kept_long }) }
        ensures fewer { OnErr result (self.new.kept_long ≤ self.old.kept_long) }
    {
        self.put(Given::Row(row))
    }

    // Puts a clause in.
    fn put(&mut self, clause: Given<'_>) -> Result<(), FrameRefusal>
        requires { MayBeGiven self.old.formula.scopes clause }
        ensures ok { OnOk result (self.new ≡ record (changed self.old (AddClause (numbers_of clause.entry))) {
          counts = with_clause self.old.counts;
          kept_long = self.new.kept_long;
        }) }
        ensures refused { MatchOption (refusal_of self.old.formula (AddClause (numbers_of clause.entry)))
            (IsOkUnless result FrameRefusal.NoMemory) (λ e. result ≡ Err e) }
        ensures stays { IfErr result (λ e. e ≢ FrameRefusal.NoMemory → self.new ≡ self.old) }
        ensures err { OnErr result (self.new ≡ record self.old { kept_long = self.new.kept_long }) }
        ensures fewer { OnErr result (self.new.kept_long ≤ self.old.kept_long) }
    {
        put_clause(&mut self.frames, &mut self.search, clause)?;
        forget_outcome(&mut self.search, &self.frames);
        self.verdict = None;
        self.counts = self.counts.with_clause();
        Ok(())
    }

    /// Opens a frame. Refused, in this order, with GroupOpen where a group is open, with Limit where
    /// `Frames::MAX_PUSHED` pushed frames are open, and with NoMemory.
    pub fn push(&mut self) -> Result<(), FrameRefusal>
        ensures ok { OnOk result (self.new ≡ changed self.old Push) }
        ensures refused { MatchOption (refusal_of self.old.formula Push)
            (IsOkUnless result FrameRefusal.NoMemory) (λ e. result ≡ Err e) }
        ensures err { OnErr result (self.new ≡ self.old) }
    {
        reserve_mark(&mut self.marks, &self.frames)?;
        self.frames.push()?;
        forget_outcome(&mut self.search, &self.frames);
        let _ = self.marks.push(self.search.derivation().next_id());
        self.verdict = None;
        Ok(())
    }

    /// Drops the top pushed frame with its clauses, the variables that leave with it and the assumptions over these,
    /// and all that was learned from such clauses or names such a variable. Refused with NoFrame where no pushed frame
    /// is open; it takes no memory. The time is that of dropping clauses and variables, and of going over the literals
    /// of the steps since the frame was pushed.
    pub fn pop(&mut self) -> Result<(), FrameRefusal>
        ensures ok { OnOk result (self.new ≡ record (changed self.old Pop) { kept_long = self.new.kept_long }) }
        ensures refused { MatchOption (refusal_of self.old.formula Pop) (IsOk result) (λ e. result ≡ Err e) }
        ensures err { OnErr result (self.new ≡ self.old) }
    {
        let top = self.frames.depth();
        self.frames.pop()?;
        prefixes_grow();
        let mark = self.marks.pop().unwrap();
        // Each clause that is left is over the prefix that is left.
        let _left = self.frames.other_clauses();
        let _groups = self.frames.groups_len();
        drop_top(&mut self.search, &self.frames, top, mark);
        forget_outcome(&mut self.search, &self.frames);
        self.verdict = None;
        Ok(())
    }

    /// Assumes a literal for the next verdict, given as QDIMACS 1.1 writes it. Assuming it again changes no assumption.
    ///
    /// Refused, in this order, with UnknownVar where the number's variable isn't in the prefix, with AssumeScope where
    /// it isn't in the first scope, with AssumeClash where the negation is assumed, and with NoMemory.
    pub fn assume(&mut self, lit: i64) -> Result<(), FrameRefusal>
        ensures ok { OnOk result (self.new ≡ changed self.old (Assume lit)) }
        ensures refused { MatchOption (refusal_of self.old.formula (Assume lit))
            (IsOkUnless result FrameRefusal.NoMemory) (λ e. result ≡ Err e) }
        ensures err { OnErr result (self.new ≡ self.old) }
    {
        self.frames.assume(lit)?;
        forget_outcome(&mut self.search, &self.frames);
        self.verdict = None;
        Ok(())
    }

    /// Takes all assumptions back. Where one stands this is a change; where none does nothing changes, and a verdict
    /// stays. It takes no memory.
    pub fn forget_assumptions(&mut self)
        ensures { self.new ≡ forgotten self.old }
    {
        if self.frames.assumptions().is_empty() {
            return;
        }
        forget_outcome(&mut self.search, &self.frames);
        self.frames.clear_assumptions();
        self.verdict = None;
    }
}

// Makes room for the mark of one more frame, where one may be pushed.
fn reserve_mark(marks: &mut Vec<StepId>, frames: &Frames) -> Result<(), NoMemory>
    ensures same { marks.new.items ≡ marks.old.items }
    ensures room { OnOk result (refusal_of frames.now.formula Push ≡ None →
        vec_len marks.new < vec_capacity marks.new) }
    ensures err { OnErr result (refusal_of frames.now.formula Push ≡ None) }
{
    if frames.current_group().is_none() && frames.depth() != Frames::MAX_PUSHED {
        marks.reserve(1)?;
    }
    Ok(())
}
