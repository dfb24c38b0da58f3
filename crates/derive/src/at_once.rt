//! Clauses that come in at once. The clauses come in first, and then the cubes go that miss one of them, in one pass:
//! so a call without memory takes back the clauses alone, and what rests on its cubes is untouched.
ghost use Rattle.std.specs.Prelude.{◌≡◌, ℕ, [], Some, IsTrue, OnOk, OnErr, take, length};
ghost use Rattle.std.specs.List.{All};
ghost use Rattle.prefix.specs.declared.quant.Quant.TheVariants.{Exists as exists};
ghost use Rattle.calculus.specs.Rows.{IsRow};
ghost use Rattle.derive.specs.Cubes.{misses_one};
ghost use Rattle.derive.specs.Dropping.{Falls};
ghost use Rattle.derive.specs.Growing.{AreUnlinked, Grows};
ghost use Rattle.derive.specs.Inputs.{InputsClauses, IsWhole, ListsAll, ListsOne};
ghost use Rattle.derive.specs.State.{IsLegalFor, Note as Kept, SameStep, State, arena_of, has_rows, is_live, next_id, note_at};

use super::dropping::Roots;
use super::{Derivation, StepId};
use memory::NoMemory;
use prefix::{Lit, LitList, Prefix};

impl Derivation {
    /// Puts in clauses of the formula, of a frame, each with its reduction, as `input_clause` does, and lists the ids
    /// of the reductions behind those that are listed. The initial cubes that hold no literal of one of the clauses go,
    /// with all that rests on them. Either all clauses come in or none: with no memory the derivation stays as it was,
    /// and so does the list.
    pub fn input_clauses(
        &mut self,
        prefix: &Prefix,
        clauses: &[LitList],
        frame: usize,
        reductions: &mut Vec<StepId>,
    ) -> Result<(), NoMemory>
        requires { IsTrue (has_rows self.old) }
        ensures ok { OnOk result (InputsClauses prefix.now frame self.old self.new clauses.now reductions.old.items
            reductions.new.items) }
        ensures kept { OnOk result ((id : ℕ) (note : Kept) → note_at self.old id ≡ Some note → note.side ≡ exists →
            SameStep self.old self.new id) }
        ensures stays { OnOk result ((id : ℕ) → IsTrue (is_live self.old id) →
            (Falls (misses_one clauses.now (arena_of self.old)) self.old.notes id → ⊥) →
            IsTrue (is_live self.new id)) }
        ensures others { OnOk result ((id : ℕ) → IsTrue (is_live self.old id) → IsTrue (is_live self.new id) →
            SameStep self.old self.new id) }
        ensures unlinked { OnOk result (AreUnlinked self.old self.new) }
        ensures rows { IsTrue (has_rows self.new) }
        ensures legal { OnOk result (All (IsRow prefix.now) clauses.now → IsLegalFor prefix.now self.old →
            IsLegalFor prefix.now self.new) }
        ensures none { OnOk result (clauses.now ≡ [] → self.new ≡ self.old) }
        ensures err { OnErr result (self.new ≡ self.old) }
        ensures unlisted { OnErr result (reductions.new.items ≡ reductions.old.items) }
    {
        self.add_all(prefix, clauses, frame, reductions)?;
        self.drop_cubes(&Roots::MissingOne(clauses));
        Ok(())
    }

    // Adds clauses, each with its reduction, and lists the ids of the reductions. With no memory the derivation and the
    // list stay as they were.
    fn add_all(
        &mut self,
        prefix: &Prefix,
        clauses: &[LitList],
        frame: usize,
        reductions: &mut Vec<StepId>,
    ) -> Result<(), NoMemory>
        requires { IsTrue (has_rows self.old) }
        ensures ok { OnOk result (ListsAll prefix.now frame self.old self.new clauses.now reductions.old.items
            reductions.new.items) }
        ensures whole { IsWhole self.old }
        ensures rows { IsTrue (has_rows self.new) }
        ensures err { OnErr result (self.new ≡ self.old) }
        ensures unlisted { OnErr result (reductions.new.items ≡ reductions.old.items) }
    {
        let first = self.next_id();
        let listed = reductions.len();
        match self.add_each(prefix, clauses, frame, reductions) {
            Ok(()) => Ok(()),
            Err(error) => {
                self.undo_to(first);
                reductions.truncate(listed);
                Err(error)
            }
        }
    }

    // Adds each of the clauses, and lists its reduction. With no memory some of them may be there and listed.
    fn add_each(
        &mut self,
        prefix: &Prefix,
        clauses: &[LitList],
        frame: usize,
        reductions: &mut Vec<StepId>,
    ) -> Result<(), NoMemory>
        requires { IsTrue (has_rows self.old) }
        ensures ok { OnOk result (ListsAll prefix.now frame self.old self.new clauses.now reductions.old.items
            reductions.new.items) }
        ensures grows { Grows self.old self.new }
        ensures rows { IsTrue (has_rows self.new) }
        ensures listed { take (length reductions.old.items) reductions.new.items ≡ reductions.old.items }
    {
        // Each row stands under the id of a live step.
        let _next = self.next_id();
        for clause in clauses {
            self.add_listed(prefix, clause.lits(), frame, reductions)?;
        }
        Ok(())
    }

    // Adds a clause with its reduction, and lists the id of the reduction. With no memory the list stays as it was, and
    // the clause may be there.
    fn add_listed(
        &mut self,
        prefix: &Prefix,
        lits: &[Lit],
        frame: usize,
        reductions: &mut Vec<StepId>,
    ) -> Result<(), NoMemory>
        requires { IsTrue (has_rows self.old) }
        ensures ok { OnOk result (ListsOne prefix.now frame self.old self.new lits.now reductions.old.items
            reductions.new.items) }
        ensures grows { Grows self.old self.new }
        ensures rows { IsTrue (has_rows self.new) }
        ensures err { OnErr result (reductions.new.items ≡ reductions.old.items) }
    {
        let (_, id) = self.add_clause(prefix, lits, frame)?;
        reductions.push(id)?;
        Ok(())
    }

    // Takes back the steps that came in from an id on, with their ids.
    fn undo_to(&mut self, first: StepId)
        requires { IsTrue (has_rows self.old) }
        ensures { (before : State) → IsWhole before → next_id before ≡ first → Grows before self.old →
            self.new ≡ before }
    {
        // Each row stands under the id of a live step.
        let _next = self.next_id();
        self.cut_to(first);
        self.shorten(first);
    }
}
