//! Derivations.
ghost use Rattle.std.specs.Prelude.{◌≡◌, ◌≢◌, ◌↔◌, ◌<◌, ◌≤◌, ◌⊎◌, ℕ, true, false, IsTrue, IsFalse, Some, None, IfOk, OnOk, OnErr, Err, List, [], ◌∷◌, ◌++◌, filter, max, min, not, nat_lt, ◌==◌, if◌then◌else◌, count_by, is_some, length, slice_index_or, slice_set, Contains};
ghost use Rattle.prefix.specs.Scopes.{Scope, IsAscending};
ghost use Rattle.prefix.specs.declared.quant.Quant.TheVariants.{Exists as exists, Forall as forall};
ghost use Rattle.rows.specs.Arena.{Arena, literals_at};
ghost use Rattle.steps.specs.Counter.{after};
ghost use Rattle.steps.specs.declared.stop.Stop.TheVariants.{Spent as spent};
ghost use Rattle.calculus.specs.Rows.{IsRow, variables_in, reduce as reduction, resolve as resolvent};
ghost use Rattle.calculus.specs.Derivations.{Hits, RestsOn};
ghost use Rattle.calculus.specs.Derivations.Why.{ReducedFrom, ResolvedFrom, FinishedFrom};
ghost use Rattle.calculus.specs.Verdicts.{finished, IsEndRow, IsFinish};
ghost use Rattle.derive.specs.State.{State, arena_of, IsStepOf, SameStep, OpenClause, next_id, is_finish as finish, is_live, is_step, has_rows, row_of, side_at, why_at, tag_at, note_at, steps_of, clauses_of, open_clauses, IsLegalFor, Note as Kept};
ghost use Rattle.derive.specs.Antecedents.{Fits, IsAntecedentIn, AreSupported, IsSupportedAt, IsGreatestFrame};
ghost use Rattle.derive.specs.Adding.{clause_note, Adds, AddsBoth, AddsClause, AreResolvable, CountsRemoval, InputsClause, IsOver, IsReductionOf, Removes, cube_note, finish_at, reduction_at, resolvent_at, resolvent_note};
ghost use Rattle.derive.specs.Growing.{AreUnlinked, GainsSteps};
ghost use Rattle.derive.specs.Dropping.{Drops, Falls, NoneOutsideBelow, StepTest, is_outside, mentions, names, has_tag, finishes, is_from, unless_finish};
ghost use Rattle.derive.specs.Roots.{is_root};
ghost use Rattle.derive.specs.Cubes.{AreCubes, is_cube_in, misses, misses_one};
ghost use Rattle.derive.specs.Inputs.{shortened};
ghost use Rattle.derive.specs.Sweeping.{Sweeps};
ghost use Rattle.derive.specs.Told.{told, why_of};

use super::cubes::{drop_cubes, first_cube, list_cube, retain_cubes};
use super::dropping::{Roots, drop_roots};
use super::entry::{enter, enter_both};
use super::live::{is_live, note_in};
use super::new_step::NewStep;
use super::note::Note;
use super::outside::{first_outside, is_outside};
use super::packed::Slot;
use super::removal::{is_reduced_of, push_assumed, reduce_of};
use super::sweeping::{sweep_all, widen_marks};
use super::{Step, StepId};
use memory::NoMemory;
use pages::{Bits, Pages};
use prefix::{Lit, LitList, Prefix, Quant, Var};
use reduce::{Row, resolve};
use rows::Rows;
use std::alloc::Global;
use std::marker::Model;
use steps::{Steps, Stop};

/// A derivation of clauses and cubes: input steps, reductions, resolvents and finishes, each with its row. Contracts
/// see it as the list that has, for each id given so far, what is kept of the step that is live under it, and beside
/// it the rows.
///
/// A step has a tag: the greatest frame among the input clauses that it rests on, through other steps or at once, and
/// 0 for cubes. No step rests on a finish. The rows can be taken and put back; between the two only `step`, `is_live`,
/// `tag` and `next_id` are called.
///
/// There is no memory for a step that rests on one with an id of 2^36 or more, nor for a tag of 2^32 or more.
#[derive(Debug, Drop)]
pub struct Derivation {
    // What is kept of the step of each id, if it is live.
    notes: Pages<Slot>,
    rows: Option<Rows>,
    // No step with a tag is live under an id before that at the place of its tag, nor with a tag that has no place. The
    // greatest number stands where none came in since the last drop.
    frames_from: Vec<StepId>,
    // The ids of the live initial cubes, and maybe some of steps that aren't live any more.
    cubes: Vec<StepId>,
    // No finish is live under an id before this one. The greatest number stands where none came in since the last drop.
    finishes_from: StepId,
    // Places for a mark of each id.
    marks: Bits,
}

impl Model for Derivation {
    ghost use Rattle.derive.specs.State.{State};

    ghost Value = { State };

    ghost use Rattle.std.specs.Prelude.{◌≤◌, length};
    ghost use Rattle.derive.specs.Kept.{BelongTogether};

    ghost view = { λ d. record { notes = d.notes; rows = d.rows } };

    ghost invariant = { λ d. BelongTogether d.notes d.rows d.frames_from.items d.cubes.items d.finishes_from
        × (length d.notes ≤ length d.marks) };
}

impl Derivation {
    /// A derivation of no steps. This takes no memory.
    pub fn new(alloc: Global) -> Self
        ensures state { result ≡ record { notes = []; rows = Some [] } }
        ensures legal { (scopes : List Scope) → IsLegalFor scopes result }
    {
        Self {
            notes: Pages::new(alloc),
            rows: Some(Rows::new(alloc)),
            frames_from: Vec::new(alloc),
            cubes: Vec::new(alloc),
            finishes_from: usize::MAX,
            marks: Bits::new(alloc),
        }
    }

    /// The id that the next step gets, which is greater than every id given.
    pub fn next_id(&self) -> StepId
        ensures value { result ≡ next_id self.now }
        ensures above { (id : ℕ) → IsTrue (is_live self.now id) → id < result }
        ensures fits { (arena : Arena) → self.now.rows ≡ Some arena → Fits self.now.notes arena }
    {
        self.notes.len()
    }

    /// Whether a step is live under an id, which may be any number.
    pub fn is_live(&self, id: StepId) -> bool
        ensures { result ≡ is_live self.now id }
    {
        is_live(&self.notes, id)
    }

    /// How many steps are live.
    pub fn live_steps(&self) -> usize
        requires { IsTrue (has_rows self.now) }
        ensures { result ≡ count_by is_some (arena_of self.now) }
    {
        self.rows().live()
    }

    /// What a live step is.
    pub fn step(&self, id: StepId) -> Step
        requires { IsTrue (is_live self.now id) }
        ensures value { result ≡ told (side_at self.now id) (why_at self.now id) }
        ensures antecedents { (on : ℕ) → RestsOn (why_at self.now id) on →
            IsAntecedentIn self.now.notes id (side_at self.now id) on }
    {
        self.note(id).step()
    }

    /// The side of a live step, by its pivot quantifier: exists for a clause, forall for a cube.
    pub fn side(&self, id: StepId) -> Quant
        requires { IsTrue (is_live self.now id) }
        ensures { result ≡ side_at self.now id }
    {
        self.note(id).side()
    }

    /// The greatest frame in the support of a live step, 0 for a cube.
    pub fn tag(&self, id: StepId) -> usize
        requires { IsTrue (is_live self.now id) }
        ensures value { result ≡ tag_at self.now id }
        ensures greatest { IsGreatestFrame self.now.notes id result }
        ensures cubes { side_at self.now id ≡ forall → result ≡ 0 }
    {
        self.note(id).tag()
    }

    /// The literals of a live step, while the rows are here.
    pub fn lits(&self, id: StepId) -> &[Lit]
        requires live { IsTrue (is_live self.now id) }
        requires rows { IsTrue (has_rows self.now) }
        ensures { result.now ≡ row_of self.now id }
    {
        self.rows().lits(id)
    }

    /// Puts in a clause of the formula, of a frame, with its reduction. The answer has the id of the input step and
    /// that of the reduction, which are equal where nothing goes. The initial cubes that hold no literal of the clause
    /// go, with all that rests on them. With no memory the derivation stays as it was.
    pub fn input_clause(
        &mut self,
        prefix: &Prefix,
        lits: &[Lit],
        frame: usize,
    ) -> Result<(StepId, StepId), NoMemory>
        requires { IsTrue (has_rows self.old) }
        ensures ok { IfOk result (λ ids. InputsClause prefix.now self.old self.new ids.0 ids.1 frame lits.now) }
        ensures reduction { IfOk result (λ ids. IsReductionOf prefix.now self.new
            (record { id = ids.0; frame = frame; row = lits.now }) ids.1) }
        ensures kept { OnOk result ((id : ℕ) (note : Kept) → note_at self.old id ≡ Some note → note.side ≡ exists →
            SameStep self.old self.new id) }
        ensures stays { OnOk result ((id : ℕ) → IsTrue (is_live self.old id) →
            (Falls (misses lits.now (arena_of self.old)) self.old.notes id → ⊥) → IsTrue (is_live self.new id)) }
        ensures others { OnOk result ((id : ℕ) → IsTrue (is_live self.old id) → IsTrue (is_live self.new id) →
            SameStep self.old self.new id) }
        ensures unlinked { OnOk result (AreUnlinked self.old self.new) }
        ensures clauses { IfOk result (λ ids. clauses_of self.new ≡ clauses_of self.old
            ++ (record { id = ids.0; frame = frame; row = lits.now }) ∷ []) }
        ensures rows { IsTrue (has_rows self.new) }
        ensures legal { OnOk result (IsRow prefix.now lits.now → IsLegalFor prefix.now self.old →
            IsLegalFor prefix.now self.new) }
        ensures err { OnErr result (self.new ≡ self.old) }
    {
        // Each step rests on live ones.
        let _ids = self.notes.len();
        let ids = self.add_clause(prefix, lits, frame)?;
        self.drop_cubes_missing(lits);
        Ok(ids)
    }

    /// Puts in an initial cube. With no memory the derivation stays as it was.
    pub fn input_cube(&mut self, lits: &[Lit]) -> Result<StepId, NoMemory>
        requires { IsTrue (has_rows self.old) }
        ensures ok { IfOk result (λ id. Adds self.old self.new id cube_note lits.now) }
        ensures step { IfOk result (λ id. IsStepOf self.new id forall lits.now 0) }
        ensures gains { OnOk result (GainsSteps self.old self.new) }
        ensures rows { IsTrue (has_rows self.new) }
        ensures legal { OnOk result ((scopes : List Scope) → IsRow scopes lits.now →
            Hits lits.now (open_clauses self.old) → IsLegalFor scopes self.old → IsLegalFor scopes self.new) }
        ensures err { OnErr result (self.new ≡ self.old) }
    {
        let note = NewStep::new(Quant::Forall, Step::InputCube, 0);
        self.add(note, lits)
    }

    /// Puts in the resolvent of two steps of one side, neither of them a finish, on a variable that is positive in
    /// `a` and negative in `b`. With no memory the derivation stays as it was.
    pub fn resolve(
        &mut self,
        prefix: &Prefix,
        a: StepId,
        b: StepId,
        pivot: Var,
    ) -> Result<StepId, NoMemory>
        requires rows { IsTrue (has_rows self.old) }
        requires positive { IsTrue (is_step self.old a) }
        requires negative { IsTrue (is_step self.old b) }
        requires one_side { side_at self.old a ≡ side_at self.old b }
        ensures ok { IfOk result (λ id. Adds self.old self.new id (resolvent_note self.old a b pivot)
            (resolvent_at self.old a b pivot)) }
        ensures step { IfOk result (λ id. IsStepOf self.new id (side_at self.old a) (resolvent_at self.old a b pivot)
            (max (tag_at self.old a) (tag_at self.old b))) }
        ensures gains { OnOk result (GainsSteps self.old self.new) }
        ensures rows { IsTrue (has_rows self.new) }
        ensures legal { OnOk result (AreResolvable prefix.now self.old a b pivot → IsLegalFor prefix.now self.old →
            IsLegalFor prefix.now self.new) }
        ensures err { OnErr result (self.new ≡ self.old) }
    {
        let mut row = Row::new(*self.cubes.allocator());
        resolve(self.lits(a), self.lits(b), pivot, &mut row)?;
        let tag = self.tag(a).max(self.tag(b));
        let note = NewStep::new(self.side(a), Step::Resolved { a, b, pivot }, tag);
        self.add(note, row.as_slice())
    }

    /// Puts in the reduction of a step that is no finish, and answers its id; where nothing goes, that of the step
    /// itself. With no memory the derivation stays as it was.
    pub fn reduce(&mut self, prefix: &Prefix, a: StepId) -> Result<StepId, NoMemory>
        requires rows { IsTrue (has_rows self.old) }
        requires step { IsTrue (is_step self.old a) }
        ensures ok { IfOk result (λ id. Removes self.old self.new id a (ReducedFrom a)
            (reduction_at prefix.now self.old a)) }
        ensures step { IfOk result (λ id. IsStepOf self.new id (side_at self.old a)
            (reduction_at prefix.now self.old a) (tag_at self.old a)) }
        ensures gains { OnOk result (GainsSteps self.old self.new) }
        ensures rows { IsTrue (has_rows self.new) }
        ensures legal { OnOk result (IsLegalFor prefix.now self.old → IsLegalFor prefix.now self.new) }
        ensures err { OnErr result (self.new ≡ self.old) }
    {
        if self.is_reduced(prefix, a) {
            return Ok(a);
        }
        let mut row = Row::new(*self.cubes.allocator());
        reduce_of(self.side(a), prefix, self.lits(a), &mut row)?;
        self.add_removal(a, Step::Reduced(a), row.as_slice())
    }

    /// Puts in the reduction of a step as `reduce` does, and counts a step where something goes, before it comes in.
    /// Spent comes only there, where no step is left, and changes nothing. With no memory the derivation stays as it
    /// was; the step may have been counted.
    #[inline(always)]
    pub fn reduce_counted(
        &mut self,
        prefix: &Prefix,
        a: StepId,
        steps: &mut Steps,
    ) -> Result<StepId, Stop>
        requires rows { IsTrue (has_rows self.old) }
        requires step { IsTrue (is_step self.old a) }
        ensures ok { IfOk result (λ id. Removes self.old self.new id a (ReducedFrom a)
            (reduction_at prefix.now self.old a)) }
        ensures step { IfOk result (λ id. IsStepOf self.new id (side_at self.old a)
            (reduction_at prefix.now self.old a) (tag_at self.old a)) }
        ensures counted { OnOk result (CountsRemoval (row_of self.old a) (reduction_at prefix.now self.old a)
            steps.old steps.new) }
        ensures gains { OnOk result (GainsSteps self.old self.new) }
        ensures rows { IsTrue (has_rows self.new) }
        ensures legal { OnOk result (IsLegalFor prefix.now self.old → IsLegalFor prefix.now self.new) }
        ensures err { OnErr result (self.new ≡ self.old) }
        ensures spent { result ≡ Err spent → (reduction_at prefix.now self.old a ≢ row_of self.old a)
            × (steps.old.spent ≡ steps.old.budget) × (steps.new ≡ steps.old) }
        ensures tried { OnErr result ((steps.new ≡ steps.old) ⊎ (steps.new ≡ after steps.old 1)) }
    {
        if self.is_reduced(prefix, a) {
            return Ok(a);
        }
        let mut row = Row::new(*self.cubes.allocator());
        reduce_of(self.side(a), prefix, self.lits(a), &mut row)?;
        steps.tick()?;
        Ok(self.add_removal(a, Step::Reduced(a), row.as_slice())?)
    }

    /// Puts in the finish of an end row, which keeps the literals over assumed variables, and answers its id; where
    /// nothing goes, that of the end row itself. The assumptions ascend by variable, as rows do. With no memory the
    /// derivation stays as it was.
    pub fn finish(
        &mut self,
        prefix: &Prefix,
        row: StepId,
        assumptions: &[Lit],
    ) -> Result<StepId, NoMemory>
        requires rows { IsTrue (has_rows self.old) }
        requires step { IsTrue (is_step self.old row) }
        requires ascending { IsAscending (variables_in assumptions.now) }
        ensures ok { IfOk result (λ id. Removes self.old self.new id row (FinishedFrom row)
            (finish_at assumptions.now self.old row)) }
        ensures finish { IfOk result (λ id. IsEndRow (side_at self.old row) prefix.now assumptions.now
            (row_of self.old row) → IsFinish (side_at self.old row) prefix.now assumptions.now (row_of self.old row)
            (row_of self.new id)) }
        ensures rests { IfOk result (λ id. (id ≡ row) ⊎ (why_at self.new id ≡ FinishedFrom row)) }
        ensures gains { OnOk result (GainsSteps self.old self.new) }
        ensures rows { IsTrue (has_rows self.new) }
        ensures legal { OnOk result ((scopes : List Scope) → IsLegalFor scopes self.old → IsLegalFor scopes self.new) }
        ensures err { OnErr result (self.new ≡ self.old) }
    {
        let mut finish = Row::new(*self.cubes.allocator());
        push_assumed(self.lits(row), assumptions, &mut finish)?;
        self.add_removal(row, Step::Finished(row), finish.as_slice())
    }

    /// The id from which on steps of a frame can stand. What goes where the frame is dropped has this id or a later
    /// one, and the frame or a later one as its tag.
    pub fn frame_from(&self, frame: usize) -> StepId
        ensures above { (id : ℕ) (note : Kept) → note_at self.now id ≡ Some note → id < result →
            has_tag frame id note ≡ false }
        ensures falls { (id : ℕ) → Falls (has_tag frame) self.now.notes id →
            (result ≤ id) × (frame ≤ tag_at self.now id) }
    {
        self.frames_from
            .get(frame)
            .copied()
            .unwrap_or(self.notes.len())
    }

    /// Drops the steps with this tag, with all that rests on them. This takes no memory.
    pub fn drop_frame(&mut self, frame: usize)
        requires { IsTrue (has_rows self.old) }
        ensures drops { Drops (has_tag frame) self.old self.new }
        ensures clauses { clauses_of self.new ≡ filter (λ (c : OpenClause). not (c.frame == frame))
            (clauses_of self.old) }
        ensures legal { (scopes : List Scope) → IsLegalFor scopes self.old → IsLegalFor scopes self.new }
    {
        self.drop_all(self.frame_from(frame), Roots::Frame(frame));
        forget_frame(&mut self.frames_from, frame);
    }

    /// The id from which on steps can go where the initial cubes go that hold no literal of a clause. Cubes alone go
    /// then. This compares the literals of each initial cube with the clause's.
    pub fn missing_from(&self, clause: &[Lit]) -> StepId
        requires { IsTrue (has_rows self.now) }
        ensures { (id : ℕ) → Falls (misses clause.now (arena_of self.now)) self.now.notes id →
            (result ≤ id) × (side_at self.now id ≡ forall) }
    {
        self.first_cube(&Roots::Missing(clause))
    }

    /// The id from which on steps can go where the initial cubes go that hold no literal of one of the clauses. Cubes
    /// alone go then. This compares the literals of each initial cube with those of the clauses.
    pub fn missing_one_from(&self, clauses: &[LitList]) -> StepId
        requires { IsTrue (has_rows self.now) }
        ensures { (id : ℕ) → Falls (misses_one clauses.now (arena_of self.now)) self.now.notes id →
            (result ≤ id) × (side_at self.now id ≡ forall) }
    {
        self.first_cube(&Roots::MissingOne(clauses))
    }

    /// Drops the initial cubes that hold no literal of a clause, with all that rests on them; the others stay. This
    /// compares the literals of each initial cube with the clause's; only where one of them is dropped are other steps
    /// looked at, those after it. It takes no memory.
    pub fn drop_cubes_missing(&mut self, clause: &[Lit])
        requires { IsTrue (has_rows self.old) }
        ensures drops { Drops (misses clause.now (arena_of self.old)) self.old self.new }
        ensures left { (id : ℕ) → IsTrue (is_cube_in (note_at self.new id)) →
            Hits (row_of self.new id) (clause.now ∷ []) }
        ensures stays { (id : ℕ) → IsTrue (is_cube_in (note_at self.old id)) →
            Hits (row_of self.old id) (clause.now ∷ []) → SameStep self.old self.new id }
        ensures kept { (id : ℕ) (note : Kept) → note_at self.old id ≡ Some note → note.side ≡ exists →
            note_at self.new id ≡ Some note }
        ensures clauses { clauses_of self.new ≡ clauses_of self.old }
        ensures legal { (scopes : List Scope) → IsLegalFor scopes self.old → IsLegalFor scopes self.new }
    {
        self.drop_cubes(&Roots::Missing(clause));
    }

    /// Drops the finishes. This takes no memory.
    pub fn drop_finish(&mut self)
        requires { IsTrue (has_rows self.old) }
        ensures drops { Drops finishes self.old self.new }
        ensures exactly { (id : ℕ) → note_at self.new id ≡ unless_finish (note_at self.old id) }
        ensures steps { steps_of self.new ≡ steps_of self.old }
        ensures clauses { clauses_of self.new ≡ clauses_of self.old }
        ensures legal { (scopes : List Scope) → IsLegalFor scopes self.old → IsLegalFor scopes self.new }
    {
        self.drop_all(self.finishes_from, Roots::Finishes);
        self.finishes_from = usize::MAX;
    }

    /// Drops every step with this id or a later one. This takes no memory.
    pub fn cut_to(&mut self, first: StepId)
        requires { IsTrue (has_rows self.old) }
        ensures drops { Drops (is_from first) self.old self.new }
        ensures front { (id : ℕ) → note_at self.new id ≡ (if nat_lt id first then note_at self.old id else None) }
        ensures clauses { clauses_of self.new ≡ filter (λ (c : OpenClause). nat_lt c.id first) (clauses_of self.old) }
        ensures legal { (scopes : List Scope) → IsLegalFor scopes self.old → IsLegalFor scopes self.new }
    {
        self.drop_all(first, Roots::From(first));
    }

    /// Keeps the input clauses, the steps with these ids, and all that these rest on, and drops every other step. Then
    /// the rows are moved together. This goes over the live steps and their literals, over a few bits for each id given
    /// so far, and once over the places of all rows, and takes no memory.
    pub fn sweep(&mut self, keep: &[StepId])
        requires rows { IsTrue (has_rows self.old) }
        requires live { (id : ℕ) → Contains keep.now id → IsTrue (is_live self.old id) }
        ensures sweeps { Sweeps keep.now self.old self.new }
        ensures drops { (test : StepTest) × Drops test self.old self.new }
        ensures kept { (id : ℕ) → Contains keep.now id → SameStep self.old self.new id }
        ensures clauses { clauses_of self.new ≡ clauses_of self.old }
        ensures legal { (scopes : List Scope) → IsLegalFor scopes self.old → IsLegalFor scopes self.new }
    {
        sweep_all(
            &mut self.notes,
            self.rows.as_mut().unwrap(),
            &mut self.marks,
            keep,
        );
        retain_cubes(&mut self.cubes, &self.notes);
    }

    /// Whether a live step names a variable that isn't in a prefix.
    pub fn names_outside(&self, id: StepId, prefix: &Prefix) -> bool
        requires live { IsTrue (is_live self.now id) }
        requires rows { IsTrue (has_rows self.now) }
        ensures { result ≡ mentions (is_outside prefix.now) (row_of self.now id) }
    {
        is_outside(self.lits(id), prefix)
    }

    /// The id from which on steps of a side can go where those go that name a variable outside a prefix, none of which
    /// has an id below `from`. This goes over the literals of the steps of the side from `from` on, up to the first
    /// that names such a variable.
    pub fn outside_from(&self, side: Quant, from: StepId, prefix: &Prefix) -> StepId
        requires rows { IsTrue (has_rows self.now) }
        requires below { NoneOutsideBelow prefix.now from self.now }
        ensures { (id : ℕ) → Falls (names (is_outside prefix.now) (arena_of self.now)) self.now.notes id →
            side_at self.now id ≡ side → result ≤ id }
    {
        first_outside(&self.notes, self.rows(), side, from, prefix)
    }

    /// Drops the steps that name a variable outside a prefix, with all that rests on them. None of them has an id below
    /// `from`, as where that was `next_id` when the first such variable came. This takes no memory, and the time of
    /// going over the literals of the steps from that id on.
    pub fn drop_outside(&mut self, from: StepId, prefix: &Prefix)
        requires rows { IsTrue (has_rows self.old) }
        requires below { NoneOutsideBelow prefix.now from self.old }
        ensures drops { Drops (names (is_outside prefix.now) (arena_of self.old)) self.old self.new }
        ensures clauses { clauses_of self.new ≡ filter (λ (c : OpenClause).
            not (mentions (is_outside prefix.now) c.row)) (clauses_of self.old) }
        ensures left { (id : ℕ) → IsTrue (is_live self.new id) →
            mentions (is_outside prefix.now) (row_of self.new id) ≡ false }
        ensures legal { (scopes : List Scope) → IsLegalFor scopes self.old → IsLegalFor scopes self.new }
    {
        self.drop_all(from, Roots::Outside(prefix));
    }

    /// Hands out the rows. Then only `step`, `is_live`, `tag` and `next_id` are called, until they are put back. This
    /// takes no memory.
    #[inline(always)]
    pub fn take_rows(&mut self) -> Rows
        requires { IsTrue (has_rows self.old) }
        ensures rows { Some result ≡ self.old.rows }
        ensures state { self.new ≡ record { notes = self.old.notes; rows = None } }
        ensures fits { Fits self.old.notes result }
    {
        self.rows.take().unwrap()
    }

    /// Takes the rows back, under the ids that they were taken with. Their links are those of these rows. This takes
    /// no memory.
    #[inline(always)]
    pub fn put_rows(&mut self, rows: Rows)
        requires taken { IsFalse (has_rows self.old) }
        requires fits { Fits self.old.notes rows }
        ensures state { self.new ≡ record { notes = self.old.notes; rows = Some rows } }
        ensures same { (before : State) → before.notes ≡ self.old.notes →
            ((id : ℕ) → row_of before id ≡ literals_at rows id) →
            (steps_of self.new ≡ steps_of before) × (clauses_of self.new ≡ clauses_of before) }
        ensures legal { (before : State) (scopes : List Scope) → before.notes ≡ self.old.notes →
            ((id : ℕ) → row_of before id ≡ literals_at rows id) → IsLegalFor scopes before →
            IsLegalFor scopes self.new }
    {
        self.rows = Some(rows);
    }

    // What is kept of a live step.
    fn note(&self, id: StepId) -> Note
        requires { IsTrue (is_live self.now id) }
        ensures value { note_at self.now id ≡ Some result }
        ensures supported { AreSupported self.now.notes }
    {
        note_in(&self.notes, id).unwrap()
    }

    // Whether the reduction of a step is the step itself.
    #[inline(always)]
    fn is_reduced(&self, prefix: &Prefix, a: StepId) -> bool
        requires rows { IsTrue (has_rows self.now) }
        requires step { IsTrue (is_step self.now a) }
        ensures { IsTrue result ↔ (reduction_at prefix.now self.now a ≡ row_of self.now a) }
    {
        is_reduced_of(self.side(a), prefix, self.lits(a))
    }

    // The rows, while they are here.
    fn rows(&self) -> &Rows
        requires { IsTrue (has_rows self.now) }
        ensures value { self.now.rows ≡ Some result.now }
        ensures fits { Fits self.now.notes result.now }
    {
        self.rows.as_ref().unwrap()
    }

    // Adds a step with its row.
    #[inline(always)]
    fn add(&mut self, step: NewStep, lits: &[Lit]) -> Result<StepId, NoMemory>
        requires rows { IsTrue (has_rows self.old) }
        requires support { IsSupportedAt self.old.notes (next_id self.old) step }
        ensures ok { IfOk result (λ id. Adds self.old self.new id step lits.now) }
        ensures unlinked { OnOk result (AreUnlinked self.old self.new) }
        ensures err { OnErr result (self.new ≡ self.old) }
    {
        let note = step.kept()?;
        let next = self.notes.len();
        widen_marks(&mut self.marks, next, 1)?;
        widen(&mut self.frames_from, note.tag(), next)?;
        list_cube(&mut self.cubes, &note, next)?;
        note_finish(&mut self.finishes_from, &note, next);
        let id = enter(&mut self.notes, self.rows.as_mut().unwrap(), note, lits)?;
        Ok(id)
    }

    // Adds a step whose row is that of another one without some literals, if there are any.
    fn add_removal(&mut self, on: StepId, step: Step, row: &[Lit]) -> Result<StepId, NoMemory>
        requires rows { IsTrue (has_rows self.old) }
        requires on { IsTrue (is_step self.old on) }
        requires over { IsOver (why_of step) on }
        requires told { step ≡ told (side_at self.old on) (why_of step) }
        requires part { length row.now ≡ length (row_of self.old on) → row.now ≡ row_of self.old on }
        ensures ok { IfOk result (λ id. Removes self.old self.new id on (why_of step) row.now) }
        ensures gains { OnOk result (GainsSteps self.old self.new) }
        ensures err { OnErr result (self.new ≡ self.old) }
    {
        if row.len() == self.rows().lits(on).len() {
            return Ok(on);
        }
        let note = NewStep::new(self.side(on), step, self.tag(on));
        self.add(note, row)
    }

    // Adds a clause with its reduction.
    pub(crate) fn add_clause(
        &mut self,
        prefix: &Prefix,
        lits: &[Lit],
        frame: usize,
    ) -> Result<(StepId, StepId), NoMemory>
        requires { IsTrue (has_rows self.old) }
        ensures ok { IfOk result (λ ids. AddsClause prefix.now self.old self.new ids.0 ids.1 frame lits.now) }
        ensures unlinked { OnOk result (AreUnlinked self.old self.new) }
        ensures err { OnErr result (self.new ≡ self.old) }
    {
        if is_reduced_of(Quant::Exists, prefix, lits) {
            let input = NewStep::new(Quant::Exists, Step::InputClause, frame);
            let id = self.add(input, lits)?;
            return Ok((id, id));
        }
        let mut row = Row::new(*self.cubes.allocator());
        reduce_of(Quant::Exists, prefix, lits, &mut row)?;
        self.add_both(lits, row.as_slice(), frame)
    }

    // Adds a clause and a reduction of it.
    fn add_both(
        &mut self,
        lits: &[Lit],
        row: &[Lit],
        frame: usize,
    ) -> Result<(StepId, StepId), NoMemory>
        requires { IsTrue (has_rows self.old) }
        ensures ok { IfOk result (λ ids. AddsBoth self.old self.new ids.0 ids.1 frame lits.now row.now) }
        ensures unlinked { OnOk result (AreUnlinked self.old self.new) }
        ensures err { OnErr result (self.new ≡ self.old) }
    {
        let next = self.notes.len();
        let both = clause_and_reduction(frame, next)?;
        widen_marks(&mut self.marks, next, 2)?;
        widen(&mut self.frames_from, frame, next)?;
        let rows = self.rows.as_mut().unwrap();
        let ids = enter_both(&mut self.notes, rows, both, lits, row)?;
        Ok(ids)
    }

    // Takes back the ids from one on, under which no step is live any more.
    pub(crate) fn shorten(&mut self, first: StepId)
        requires rows { IsTrue (has_rows self.old) }
        requires none { (id : ℕ) → first ≤ id → IsFalse (is_live self.old id) }
        ensures { self.new ≡ shortened first self.old }
    {
        self.notes.truncate(first);
        self.rows.as_mut().unwrap().take_back(first);
    }

    // The least id of some initial cubes, and else the id that comes next.
    fn first_cube(&self, roots: &Roots) -> StepId
        requires rows { IsTrue (has_rows self.now) }
        requires cubes { AreCubes (is_root roots.now (arena_of self.now)) }
        ensures { (id : ℕ) → Falls (is_root roots.now (arena_of self.now)) self.now.notes id →
            (result ≤ id) × (side_at self.now id ≡ forall) }
    {
        first_cube(self.cubes.as_slice(), &self.notes, self.rows(), roots)
    }

    // Drops some initial cubes, with all that rests on them.
    pub(crate) fn drop_cubes(&mut self, roots: &Roots)
        requires rows { IsTrue (has_rows self.old) }
        requires cubes { AreCubes (is_root roots.now (arena_of self.old)) }
        ensures drops { Drops (is_root roots.now (arena_of self.old)) self.old self.new }
        ensures supported { AreSupported self.old.notes }
    {
        drop_cubes(
            &mut self.notes,
            self.rows.as_mut().unwrap(),
            &mut self.cubes,
            roots,
        );
    }

    // Drops the roots, which have no id below `from`, with all that rests on them.
    fn drop_all(&mut self, from: StepId, roots: Roots)
        requires rows { IsTrue (has_rows self.old) }
        requires below { (id : ℕ) (note : Kept) → note_at self.old id ≡ Some note → id < from →
            is_root roots (arena_of self.old) id note ≡ false }
        ensures drops { Drops (is_root roots.entry (arena_of self.old)) self.old self.new }
        ensures supported { AreSupported self.old.notes }
    {
        drop_roots(&mut self.notes, self.rows.as_mut().unwrap(), from, &roots);
    }
}

// A clause of a frame and a reduction of it, where the clause is to have this id.
fn clause_and_reduction(frame: usize, clause: StepId) -> Result<(Note, Note), NoMemory>
    ensures { IfOk result (λ notes. (notes.0 ≡ clause_note frame)
        × (notes.1 ≡ record { side = exists; why = ReducedFrom clause; tag = frame })) }
{
    let input = NewStep::new(Quant::Exists, Step::InputClause, frame).kept()?;
    let reduction = NewStep::new(Quant::Exists, Step::Reduced(clause), frame).kept()?;
    Ok((input, reduction))
}

// Notes that no step of a frame is live.
fn forget_frame(frames_from: &mut Vec<StepId>, frame: usize)
    ensures { frames_from.new.items ≡ slice_set frames_from.old.items frame usize.MAX }
{
    if frame < frames_from.len() {
        frames_from[frame] = usize::MAX;
    }
}

// Notes the id that comes next, where its step is to be a finish.
#[inline(always)]
fn note_finish(finishes_from: &mut StepId, note: &Note, next: StepId)
    ensures sooner { finishes_from.new ≤ finishes_from.old }
    ensures there { finish note.now.why ≡ true → finishes_from.new ≤ next }
{
    if note.is_finish() {
        *finishes_from = (*finishes_from).min(next);
    }
}

// Notes that a step of a frame comes in under the next id, and makes places for the frames up to it.
#[inline(always)]
fn widen(frames_from: &mut Vec<StepId>, frame: usize, next: StepId) -> Result<(), NoMemory>
    ensures told { (f : ℕ) → min (slice_index_or frames_from.new.items f next) next
        ≤ slice_index_or frames_from.old.items f next }
    ensures ok { OnOk result ((frame < length frames_from.new.items)
        × (slice_index_or frames_from.new.items frame next ≤ next)) }
{
    if frames_from.len() <= frame {
        frames_from.resize(frame.saturating_add(1), usize::MAX)?;
    }
    frames_from[frame] = frames_from[frame].min(next);
    Ok(())
}
