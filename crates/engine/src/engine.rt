//! The engine.
ghost use Rattle.std.specs.Prelude.{◌≡◌, ◌≤◌, ℕ, [], Ok, None, Contains, IfOk, IfErr, IfSome, OnOk, OnErr};
ghost use Rattle.prefix.specs.Scopes.{IsPrefix, all_variables};
ghost use Rattle.truth.specs.Truth.{truth_under};
ghost use Rattle.calculus.specs.Search.{IsRefuted};
ghost use Rattle.frames.specs.State.{open_clauses};
ghost use Rattle.search.specs.Counting.{size_of};
ghost use Rattle.search.specs.Stops.{IsQuickStop};
ghost use Rattle.engine.specs.Counting.{with_solve};
ghost use Rattle.engine.specs.State.{engine_of, new_engine};
ghost use Rattle.engine.specs.Keeping.{MayBeKept};
ghost use Rattle.engine.specs.Verdicts.{HasProof, IsStopFor};

use crate::counts::Counts;
use crate::lookup::keep_mentioned;
use crate::tied::{decide, forget_outcome};
use crate::verdict::{Held, Literals, Verdict};
use calculus::{end_rows_give_proofs, proofs_decide};
use derive::{StepId, steps_are_listed};
use frames::{Assumptions, Frames};
use memory::NoMemory;
use prefix::{Lit, Prefix};
use search::{Search, SolveStop};
use std::alloc::Global;
use std::marker::Model;
use steps::Steps;
use versions::Version;

/// How many long learned rows that are no reasons a solve may keep at first.
pub const FIRST_KEPT: u32 = 512;

/// An incremental solver: commands build a formula, `solve` decides it under the assumptions, and what it learns stays
/// for the next call.
#[derive(Debug, Drop)]
pub struct Engine {
    pub(crate) alloc: Global,
    pub(crate) frames: Frames,
    pub(crate) search: Search,
    pub(crate) verdict: Option<Held>,
    pub(crate) counts: Counts,
    // How often a solve may begin anew.
    pub(crate) restarts: u32,
    // How many long learned rows that are no reasons a solve may keep.
    pub(crate) kept_rows: u32,
    // For each pushed frame the id that came next when it was pushed.
    pub(crate) marks: Vec<StepId>,
}

impl Model for Engine {
    ghost use Rattle.std.specs.Option.{option_map};
    ghost use Rattle.engine.specs.State.{EngineState};

    ghost Value = { EngineState };

    ghost use Rattle.engine.specs.Kept.{IsEngine};
    ghost use Rattle.engine.specs.Verdicts.{told};

    ghost view = { λ e. record {
      formula = e.frames.formula;
      verdict = option_map (told e.search.derivation) e.verdict;
      counts = e.counts;
      restarts = e.restarts;
      kept_rows = e.kept_rows;
      kept_long = e.search.long;
    } };

    ghost invariant = { λ e. IsEngine e.frames.formula e.search e.verdict e.counts e.marks.items };
}

impl Engine {
    /// An engine of no scopes and no clauses, for scripts of version 1. This takes no memory.
    pub fn new(alloc: Global) -> Result<Self, NoMemory>
        ensures { result ≡ Ok new_engine }
    {
        Self::with_version(alloc, Version::One)
    }

    /// An engine of no scopes and no clauses, in which variables leave with their frame where the version says so. This
    /// takes no memory.
    pub fn with_version(alloc: Global, version: Version) -> Result<Self, NoMemory>
        ensures { result ≡ Ok (engine_of version) }
    {
        Ok(Self {
            alloc,
            frames: Frames::with_version(alloc, version),
            search: Search::new(alloc),
            verdict: None,
            counts: Counts::new(),
            restarts: 0,
            kept_rows: FIRST_KEPT,
            marks: Vec::new(alloc),
        })
    }

    /// The open prefix.
    pub fn prefix(&self) -> &Prefix
        ensures value { result.now ≡ self.now.formula.scopes }
        ensures valid { IsPrefix self.now.formula.scopes }
    {
        self.frames.prefix()
    }

    /// The number up to which variables have room in a solve: on the trail, for their signs, and in both watches. It is
    /// never below that of a variable of the prefix, so that a solve finds room for each of them.
    pub fn room(&self) -> usize
        ensures { (x : ℕ) → Contains (all_variables self.now.formula.scopes) x → x ≤ result }
    {
        self.search.room()
    }

    /// How often a solve may begin anew, after each 64th of its lessons; before the first call never. This is no
    /// change: a verdict stays.
    pub fn set_restarts(&mut self, restarts: u32)
        ensures { self.new ≡ record self.old { restarts = restarts } }
    {
        self.restarts = restarts;
    }

    /// How many long learned rows that are no reasons a solve may keep: where there are more, the oldest of them are
    /// forgotten until half as many are left. It is from 16 to 16,777,216, and before the first call 512. This is no
    /// change: a verdict stays, and so do the rows until the next solve.
    pub fn set_kept_rows(&mut self, rows: u32)
        requires { MayBeKept rows }
        ensures { self.new ≡ record self.old { kept_rows = rows } }
    {
        self.kept_rows = rows;
    }

    /// Decides the open formula under the assumptions. A verdict empties the assumptions; it stays until the next
    /// change, and a solve that stops is one.
    ///
    /// Spent comes only where the budget is spent, and a step is due in some search with these clauses and assumptions.
    /// With as many steps left as suffice for the variables and the restarts that is never so; at the first solve,
    /// where propagation from the assumptions refutes the clauses, only with fewer than `2 * n * (n + 3)` steps left, n
    /// being the number of variables. After it and after want of memory the formula and the assumptions are as before,
    /// and there is no verdict.
    pub fn solve(&mut self, steps: &mut Steps) -> Result<Verdict, SolveStop>
        ensures truth { IfOk result (λ v. v.truth
            ≡ truth_under self.old.formula.assumptions self.old.formula.scopes (open_clauses self.old.formula)) }
        ensures proof { IfOk result (λ v. HasProof self.old.formula v self.new.verdict) }
        ensures emptied { OnOk result (self.new.formula ≡ record self.old.formula { assumptions = [] }) }
        ensures kept { OnErr result (self.new.formula ≡ self.old.formula) }
        ensures none { OnErr result (self.new.verdict ≡ None) }
        ensures stop { IfErr result (IsStopFor self.old.restarts self.old.formula steps.old steps.new) }
        ensures quick { self.old.counts.solves ≡ 0 → IsRefuted self.old.formula.scopes
            (open_clauses self.old.formula) self.old.formula.assumptions →
            IfErr result (IsQuickStop (size_of self.old.formula.scopes) steps.old) }
        ensures budget { steps.new.budget ≡ steps.old.budget }
        ensures rises { steps.old.spent ≤ steps.new.spent }
        ensures counts { self.new.counts ≡ with_solve steps.old.budget self.old.restarts
            (size_of self.old.formula.scopes) self.old.counts }
        ensures restarts { self.new.restarts ≡ self.old.restarts }
        ensures kept_rows { self.new.kept_rows ≡ self.old.kept_rows }
        ensures obeyed { OnOk result (IfSome self.new.verdict (λ v. v.kept ≡ self.old.kept_rows)) }
    {
        self.counts = self.counts.with_solve(
            steps.budget(),
            self.restarts,
            self.frames.prefix().len() as u64,
        );
        self.verdict = None;
        forget_outcome(&mut self.search, &self.frames);
        let assumed = copied(self.alloc, self.frames.assumptions())?;
        let mut relevant = copied(self.alloc, self.frames.assumptions())?;
        let matrix = self.frames.open_clauses(self.alloc)?;
        let verdict = decide(
            &mut self.search,
            &self.frames,
            &matrix,
            &assumed,
            self.restarts,
            self.kept_rows,
            steps,
        )?;
        drop(matrix);
        end_rows_give_proofs();
        proofs_decide();
        steps_are_listed();
        let _valid = self.frames.prefix();
        keep_mentioned(&mut relevant, self.search.derivation().lits(verdict.end));
        self.frames.clear_assumptions();
        self.verdict = Some(Held {
            verdict,
            assumed: Literals::from_vec(assumed),
            relevant: Literals::from_vec(relevant),
            kept: self.kept_rows,
        });
        Ok(verdict)
    }
}

// A list of these literals.
fn copied(alloc: Global, assumptions: &Assumptions) -> Result<Vec<Lit>, NoMemory>
    ensures { IfOk result (λ list. list.items ≡ assumptions.now) }
{
    Ok(assumptions.to_vec(alloc)?)
}
