//! Frames.
ghost use Rattle.std.specs.Prelude.{Ok, ◌≡◌, ◌<◌, ℕ, true, false, [], Some, None, is_some, IsSome, IsOk, IfOk, IfSome, OnOk, OnErr, IsOkUnless, MatchOption, length, map, slice_get};
ghost use Rattle.std.specs.List.{AllByRecursion};
ghost use Rattle.prefix.specs.Literal.{signed_number};
ghost use Rattle.prefix.specs.Scopes.{IsPrefix, IsAscending, AreDistinct, level_of};
ghost use Rattle.calculus.specs.Rows.{IsRow, variables_in};
ghost use Rattle.calculus.specs.Verdicts.{AreOuter};
ghost use Rattle.truth.specs.Formed.{IsClauseOver};
ghost use Rattle.frames.specs.State.{OpenFormula, all_clauses, new_formula, empty_formula, settled, clauses_in, open_clauses as open_clauses_of, popped, variables_on_top, depth as depth_of};
ghost use Rattle.frames.specs.Groups.{AreRising, active_in, clauses_at, grouped_in, is_active as is_active_in, is_group, with_mark};
ghost use Rattle.frames.specs.Places.{IsGroupAt};
ghost use Rattle.frames.specs.Kept.{last_vars};
ghost use Rattle.frames.specs.Leaving.{NamesNone};
ghost use Rattle.frames.specs.Commands.{with_row_at, Activate, AddClause, AddScope, AddVariable, Assume, CloseGroup, Deactivate, OpenGroup, Pop, Push, first_of, formula_after, is_beyond, refusal_of, turn_refusals};

use crate::assumptions::Assumptions;
use crate::groups::{Group, Groups};
use crate::lists::{
    are_known, cut, group_number, known, newest, put_row, refusal_without_row, take_row,
};
use crate::refusal::FrameRefusal;
use crate::total::Total;
use crate::variables::{leaves, make_room, put_variable, take_out, variable_for, vars_from};
use clauses::row_of;
use matrix::Matrix;
use memory::NoMemory;
use prefix::{Lit, LitList, Prefix, Quant, Var};
use std::alloc::Global;
use std::marker::Model;
use versions::Version;

// What the last command was, where that matters for taking it back.
#[derive(Clone, Copy, Debug)]
pub(crate) enum Latest {
    // No accepted clause.
    Other,
    // An accepted clause that is a tautology.
    LeftOut,
    // An accepted clause, whose row is the last one of the open group, or else of the rows outside groups.
    Kept,
}

// How many rows and variables came before a pushed frame.
#[derive(Clone, Copy, Debug)]
pub(crate) struct Start {
    pub(crate) rows: usize,
    pub(crate) vars: usize,
}

/// The scopes, the frames and groups of clauses, and the assumptions that commands build.
///
/// From version 2 on a variable that is added while a pushed frame is open leaves with the top frame. In version 1, and
/// where frame 0 alone is open, it stays.
///
/// Frame 0 is always open, and at most `Frames::MAX_PUSHED` more. While a group is open, clauses join it in place of
/// the top frame. Its clauses are in the open formula while it is active, whatever frames come and go. In frames and
/// groups, active or not, stand at most `Frames::MAX_CLAUSES` clauses with at most `Frames::MAX_LITERALS` literals in
/// all. A tautology is accepted and left out, a repeated literal counts once. A clause costs its length, apart from
/// sorting; nothing is copied when a frame is pushed or popped, or a group made active or inactive.
#[derive(Debug, Drop)]
pub struct Frames {
    version: Version,
    prefix: Prefix,
    // The rows of all open frames, those of groups apart.
    rows: Vec<LitList>,
    // The variables that leave with their frames.
    vars: Vec<Var>,
    // Where each pushed frame starts.
    starts: Vec<Start>,
    groups: Groups,
    // How many rows stand in frames and groups.
    total: Total,
    assumptions: Assumptions,
    latest: Latest,
}

impl Model for Frames {
    ghost use Rattle.frames.specs.State.{FramesState};

    ghost Value = { FramesState };

    ghost use Rattle.std.specs.Prelude.{◌++◌};
    ghost use Rattle.frames.specs.Groups.{grouped_in};
    ghost use Rattle.frames.specs.Kept.{at_first, frames_from, outside, state_of, AreAssumptions, AreCounted, AreFrames, AreGrouped};
    ghost use Rattle.frames.specs.Leaving.{AreLeaving};

    ghost view = { λ f. state_of f.version f.prefix f.starts.items f.rows.items f.vars.items f.groups f.assumptions
        f.latest };

    ghost invariant = { λ f.
        AreFrames f.prefix f.starts.items f.rows.items f.vars.items (outside f.latest f.groups.current)
        × AreAssumptions f.prefix f.assumptions
        × AreLeaving f.version f.prefix (frames_from at_first f.starts.items f.rows.items f.vars.items)
        × AreGrouped f.prefix f.starts.items f.vars.items f.groups f.latest
        × AreCounted f.total (f.rows.items ++ grouped_in f.groups.groups) };
}

impl Frames {
    /// The greatest number of pushed frames.
    pub const MAX_PUSHED: usize = 65_536;

    /// The greatest number of clauses in the open frames and all groups.
    pub const MAX_CLAUSES: usize = 16_777_216;

    /// The greatest number of literals in the open frames and all groups.
    pub const MAX_LITERALS: usize = 268_435_456;

    /// The greatest number of a group.
    pub const MAX_GROUP: u64 = 65_536;

    /// No scope, no clause, and frame 0 alone, in version 1.
    pub fn new(alloc: Global) -> Self
        ensures { result ≡ settled empty_formula }
    {
        Self::with_version(alloc, Version::One)
    }

    /// No scope, no clause, and frame 0 alone, in this version. This takes no memory.
    pub fn with_version(alloc: Global, version: Version) -> Self
        ensures { result ≡ settled (new_formula version) }
    {
        Self {
            version,
            prefix: Prefix::new(alloc),
            rows: Vec::new(alloc),
            vars: Vec::new(alloc),
            starts: Vec::new(alloc),
            groups: Groups::new(alloc),
            total: Total::new(),
            assumptions: Assumptions::new(alloc),
            latest: Latest::Other,
        }
    }

    /// Puts in a scope without variables as number `at`, or as the last; scopes from there on move up by one.
    ///
    /// Refused, in this order, with AssumptionsHeld where an assumption stands, as `Prefix::add_scope` refuses it, and
    /// with NoMemory.
    pub fn scope(&mut self, quant: Quant, at: Option<u64>) -> Result<(), FrameRefusal>
        ensures ok { OnOk result (self.new ≡ settled (formula_after self.old.formula (AddScope quant at))) }
        ensures refused { MatchOption (refusal_of self.old.formula (AddScope quant at))
            (IsOkUnless result FrameRefusal.NoMemory) (λ e. result ≡ Err e) }
        ensures err { OnErr result (self.new ≡ self.old) }
    {
        if !self.assumptions.is_empty() {
            return Err(FrameRefusal::AssumptionsHeld);
        }
        self.prefix.add_scope(quant, at)?;
        self.latest = Latest::Other;
        Ok(())
    }

    /// Puts the variable of number `var` into scope number `scope`. From version 2 on, where a frame is pushed, it
    /// leaves with the top frame.
    ///
    /// Refused, in this order, with AssumptionsHeld where an assumption stands, as `Prefix::add_var` refuses it, and
    /// with NoMemory.
    pub fn var(&mut self, var: u64, scope: u64) -> Result<(), FrameRefusal>
        ensures ok { OnOk result (self.new ≡ settled (formula_after self.old.formula (AddVariable var scope))) }
        ensures refused { MatchOption (refusal_of self.old.formula (AddVariable var scope))
            (IsOkUnless result FrameRefusal.NoMemory) (λ e. result ≡ Err e) }
        ensures err { OnErr result (self.new ≡ self.old) }
    {
        if !self.assumptions.is_empty() {
            return Err(FrameRefusal::AssumptionsHeld);
        }
        let v = variable_for(&self.prefix, var, scope)?;
        let leaves = leaves(self.version, self.starts.len());
        make_room(&mut self.vars, leaves)?;
        self.prefix.add_var(var, scope)?;
        put_variable(&mut self.vars, leaves, v);
        self.latest = Latest::Other;
        Ok(())
    }

    /// Opens a frame. Refused, in this order, with GroupOpen where a group is open, with Limit where
    /// `Frames::MAX_PUSHED` pushed frames are open, and with NoMemory.
    pub fn push(&mut self) -> Result<(), FrameRefusal>
        ensures ok { OnOk result (self.new ≡ settled (formula_after self.old.formula Push)) }
        ensures refused { MatchOption (refusal_of self.old.formula Push)
            (IsOkUnless result FrameRefusal.NoMemory) (λ e. result ≡ Err e) }
        ensures err { OnErr result (self.new ≡ self.old) }
    {
        if self.groups.current().is_some() {
            return Err(FrameRefusal::GroupOpen);
        }
        if self.starts.len() == Self::MAX_PUSHED {
            return Err(FrameRefusal::Limit);
        }
        let start = Start {
            rows: self.rows.len(),
            vars: self.vars.len(),
        };
        self.starts.push(start)?;
        self.latest = Latest::Other;
        Ok(())
    }

    /// Drops the top pushed frame with its clauses, the variables that leave with it, and the assumptions over these.
    /// Refused with NoFrame where no pushed frame is open; it takes no memory. The time is that of dropping the
    /// clauses, and for each variable the logarithms of how many its scope has and of how many assumptions stand.
    pub fn pop(&mut self) -> Result<(), FrameRefusal>
        ensures ok { OnOk result (self.new ≡ settled (formula_after self.old.formula Pop)) }
        ensures refused { MatchOption (refusal_of self.old.formula Pop) (IsOk result) (λ e. result ≡ Err e) }
        ensures err { OnErr result (self.new ≡ self.old) }
    {
        let Some(start) = self.starts.pop() else {
            return Err(FrameRefusal::NoFrame);
        };
        cut(&mut self.rows, &mut self.total, start.rows);
        take_out(
            &mut self.prefix,
            &mut self.assumptions,
            &mut self.vars,
            start.vars,
        );
        self.latest = Latest::Other;
        Ok(())
    }

    /// Puts a clause into the open group, or else into the top frame, given by signed numbers as QDIMACS 1.1 writes
    /// literals.
    ///
    /// Refused, in this order, with UnknownVar where a number's variable isn't in the prefix, with Limit where the
    /// clause is no tautology and goes beyond `Frames::MAX_CLAUSES` or `Frames::MAX_LITERALS`, and with NoMemory.
    pub fn add_clause(&mut self, lits: &[i64]) -> Result<(), FrameRefusal>
        ensures ok { OnOk result (self.new ≡ record {
          formula = formula_after self.old.formula (AddClause lits.now);
          before = Some self.old.formula;
        }) }
        ensures refused { MatchOption (refusal_of self.old.formula (AddClause lits.now))
            (IsOkUnless result FrameRefusal.NoMemory) (λ e. result ≡ Err e) }
        ensures err { OnErr result (self.new ≡ self.old) }
    {
        if !are_known(&self.prefix, lits) {
            return Err(FrameRefusal::UnknownVar);
        }
        let Ok(made) = row_of(*self.rows.allocator(), lits) else {
            return Err(refusal_without_row(&self.total, lits));
        };
        let Some(row) = made else {
            self.latest = Latest::LeftOut;
            return Ok(());
        };
        self.put(row)
    }

    /// Puts a row into the open group, or else into the top frame: the clause of its literals, which moves in and isn't
    /// sorted again. It is refused as `add_clause` refuses that clause; the time is constant.
    pub fn add_row(&mut self, row: LitList) -> Result<(), FrameRefusal>
        requires { IsClauseOver self.old.formula.scopes row }
        ensures ok { OnOk result (self.new ≡ record {
          formula = formula_after self.old.formula (AddClause (map signed_number row));
          before = Some self.old.formula;
        }) }
        ensures refused { MatchOption (refusal_of self.old.formula (AddClause (map signed_number row)))
            (IsOkUnless result FrameRefusal.NoMemory) (λ e. result ≡ Err e) }
        ensures err { OnErr result (self.new ≡ self.old) }
    {
        // The scopes are a prefix.
        let _valid = self.prefix();
        self.put(row)
    }

    // Puts a row of the prefix into the open group, or else into the top frame.
    fn put(&mut self, row: LitList) -> Result<(), FrameRefusal>
        requires { IsRow self.old.formula.scopes row }
        ensures ok { OnOk result (self.new ≡ record {
          formula = with_row_at self.old.formula.current row self.old.formula;
          before = Some self.old.formula;
        }) }
        ensures limit { is_beyond (all_clauses self.old.formula) (length row) ≡ true →
            result ≡ Err FrameRefusal.Limit }
        ensures within { is_beyond (all_clauses self.old.formula) (length row) ≡ false →
            IsOkUnless result FrameRefusal.NoMemory }
        ensures err { OnErr result (self.new ≡ self.old) }
    {
        let added = row.lits().len();
        if self.total.is_beyond(added) {
            return Err(FrameRefusal::Limit);
        }
        put_row(&mut self.rows, &mut self.groups, row)?;
        self.total.add(added);
        self.latest = Latest::Kept;
        Ok(())
    }

    /// Opens the group of a number, which is made, active and without clauses, where it is new.
    ///
    /// Refused, in this order, with GroupRange where the number is 0 or above `Frames::MAX_GROUP`, with GroupOpen where
    /// a group is open, with GroupFrame where a pushed frame is open, and with NoMemory.
    pub fn open_group(&mut self, group: u64) -> Result<(), FrameRefusal>
        ensures ok { OnOk result (self.new ≡ settled (formula_after self.old.formula (OpenGroup group))) }
        ensures refused { MatchOption (refusal_of self.old.formula (OpenGroup group))
            (IsOkUnless result FrameRefusal.NoMemory) (λ e. result ≡ Err e) }
        ensures err { OnErr result (self.new ≡ self.old) }
    {
        let Some(number) = group_number(group) else {
            return Err(FrameRefusal::GroupRange);
        };
        if self.groups.is_open() {
            return Err(FrameRefusal::GroupOpen);
        }
        if !self.starts.is_empty() {
            return Err(FrameRefusal::GroupFrame);
        }
        self.groups.open_group(number)?;
        self.latest = Latest::Other;
        Ok(())
    }

    /// Closes the open group. Refused with NoGroup where none is open; it takes no memory.
    pub fn close_group(&mut self) -> Result<(), FrameRefusal>
        ensures ok { OnOk result (self.new ≡ settled (formula_after self.old.formula CloseGroup)) }
        ensures refused { MatchOption (refusal_of self.old.formula CloseGroup) (IsOk result) (λ e. result ≡ Err e) }
        ensures err { OnErr result (self.new ≡ self.old) }
    {
        if !self.groups.is_open() {
            return Err(FrameRefusal::NoGroup);
        }
        self.groups.close();
        self.latest = Latest::Other;
        Ok(())
    }

    /// Makes the group of a number active, so that its clauses join the open formula. Where it is active already
    /// nothing changes.
    ///
    /// Refused, in this order, with GroupRange where the number is 0 or above `Frames::MAX_GROUP`, with NoGroup where
    /// the group was never opened, and with GroupOpen where a group is open. It takes no memory, and the logarithm of
    /// how many groups there are.
    pub fn activate(&mut self, group: u64) -> Result<(), FrameRefusal>
        ensures ok { OnOk result (self.new ≡ settled (formula_after self.old.formula (Activate group))) }
        ensures refused { MatchOption (refusal_of self.old.formula (Activate group)) (IsOk result)
            (λ e. result ≡ Err e) }
        ensures err { OnErr result (self.new ≡ self.old) }
    {
        self.turn(group, true)
    }

    /// Makes the group of a number inactive, so that its clauses leave the open formula. Where it is inactive already
    /// nothing changes.
    ///
    /// Refused as `activate` is. It takes no memory, and the logarithm of how many groups there are.
    pub fn deactivate(&mut self, group: u64) -> Result<(), FrameRefusal>
        ensures ok { OnOk result (self.new ≡ settled (formula_after self.old.formula (Deactivate group))) }
        ensures refused { MatchOption (refusal_of self.old.formula (Deactivate group)) (IsOk result)
            (λ e. result ≡ Err e) }
        ensures err { OnErr result (self.new ≡ self.old) }
    {
        self.turn(group, false)
    }

    /// The number of a group, where this may be made active or inactive.
    ///
    /// Refused as `activate` and `deactivate` are. It takes the logarithm of how many groups there are.
    pub fn may_turn(&self, group: u64) -> Result<u32, FrameRefusal>
        ensures { MatchOption (first_of (turn_refusals self.now.formula group)) (result ≡ Ok group)
            (λ e. result ≡ Err e) }
    {
        let Some(number) = group_number(group) else {
            return Err(FrameRefusal::GroupRange);
        };
        if !self.groups.is_group(number) {
            return Err(FrameRefusal::NoGroup);
        }
        if self.groups.is_open() {
            return Err(FrameRefusal::GroupOpen);
        }
        Ok(number)
    }

    // Makes the group of a number active or inactive.
    fn turn(&mut self, group: u64, active: bool) -> Result<(), FrameRefusal>
        ensures ok { OnOk result (self.new ≡ settled (record self.old.formula {
          groups = with_mark active group self.old.formula.groups;
        })) }
        ensures refused { MatchOption (first_of (turn_refusals self.old.formula group)) (IsOk result)
            (λ e. result ≡ Err e) }
        ensures err { OnErr result (self.new ≡ self.old) }
    {
        let Some(number) = group_number(group) else {
            return Err(FrameRefusal::GroupRange);
        };
        if !self.groups.is_group(number) {
            return Err(FrameRefusal::NoGroup);
        }
        if self.groups.is_open() {
            return Err(FrameRefusal::GroupOpen);
        }
        self.groups.mark(number, active);
        self.latest = Latest::Other;
        Ok(())
    }

    /// The row of the accepted clause that was the last command: the last one of the open group, or else of the top
    /// frame. None where that clause is a tautology, and where the last command was no clause.
    pub fn last_row(&self) -> Option<&LitList>
        ensures { (before : OpenFormula) → self.now.before ≡ Some before → MatchOption result
            (self.now.formula ≡ before) (λ row. self.now.formula ≡ with_row_at before.current row.now before) }
    {
        match self.latest {
            Latest::Kept => newest(&self.rows, &self.groups),
            Latest::LeftOut | Latest::Other => None,
        }
    }

    /// Undoes the accepted `add_clause` just before it; it takes no memory.
    pub fn take_back(&mut self)
        requires { IsSome self.old.before }
        ensures formula { self.old.before ≡ Some self.new.formula }
        ensures settled { self.new ≡ settled self.new.formula }
    {
        match self.latest {
            Latest::Kept => {
                take_row(&mut self.rows, &mut self.groups, &mut self.total);
                self.latest = Latest::Other;
            }
            Latest::LeftOut | Latest::Other => self.latest = Latest::Other,
        }
    }

    /// Assumes a literal for the next verdict, given as QDIMACS 1.1 writes it. Assuming it again changes nothing.
    ///
    /// Refused, in this order, with UnknownVar where the number's variable isn't in the prefix, with AssumeScope where
    /// it isn't in the first scope, with AssumeClash where the negation is assumed, and with NoMemory. It takes the
    /// logarithm of how many assumptions stand, in whatever order they come.
    pub fn assume(&mut self, lit: i64) -> Result<(), FrameRefusal>
        ensures ok { OnOk result (self.new ≡ settled (formula_after self.old.formula (Assume lit))) }
        ensures refused { MatchOption (refusal_of self.old.formula (Assume lit))
            (IsOkUnless result FrameRefusal.NoMemory) (λ e. result ≡ Err e) }
        ensures err { OnErr result (self.new ≡ self.old) }
    {
        let Some(v) = known(&self.prefix, lit) else {
            return Err(FrameRefusal::UnknownVar);
        };
        if self.prefix.level(v) != Some(1) {
            return Err(FrameRefusal::AssumeScope);
        }
        let positive = lit > 0;
        match self.assumptions.sign(v) {
            Some(assumed) => {
                if assumed != positive {
                    return Err(FrameRefusal::AssumeClash);
                }
                self.latest = Latest::Other;
                Ok(())
            }
            None => {
                self.assumptions.put(Lit::new(v, positive))?;
                self.latest = Latest::Other;
                Ok(())
            }
        }
    }

    /// Takes all assumptions back; it takes no memory. The time is that of going over them.
    pub fn clear_assumptions(&mut self)
        ensures { self.new ≡ settled (record self.old.formula { assumptions = [] }) }
    {
        self.assumptions.clear();
        self.latest = Latest::Other;
    }

    /// The prefix.
    pub fn prefix(&self) -> &Prefix
        ensures value { result.now ≡ self.now.formula.scopes }
        ensures valid { IsPrefix self.now.formula.scopes }
    {
        let _ = self.prefix.scopes();
        &self.prefix
    }

    /// The clauses of the open formula: those of all open frames, those of frame 0 first, and then those of the active
    /// groups, by number. The memory is that of a place for each group.
    pub fn open_clauses(&self, alloc: Global) -> Result<Matrix<'_>, NoMemory>
        ensures value { IfOk result (λ matrix. matrix ≡ open_clauses_of self.now.formula) }
        ensures rows { AllByRecursion (IsRow self.now.formula.scopes) (open_clauses_of self.now.formula) }
    {
        let mut matrix = Matrix::new(alloc, &self.rows);
        self.groups.put_active(&mut matrix)?;
        Ok(matrix)
    }

    /// The clauses outside groups of all open frames, those of frame 0 first.
    pub fn other_clauses(&self) -> &[LitList]
        ensures value { result.now ≡ clauses_in self.now.formula.frames }
        ensures rows { AllByRecursion (IsRow self.now.formula.scopes) (clauses_in self.now.formula.frames) }
    {
        &self.rows
    }

    /// The number of the open group; none where no group is open.
    pub fn current_group(&self) -> Option<u32>
        ensures value { result ≡ self.now.formula.current }
        ensures first { IsSome self.now.formula.current → depth_of self.now.formula.frames ≡ 0 }
    {
        self.groups.current()
    }

    /// Whether the group of this number is active; false where it was never opened.
    pub fn is_active(&self, group: u32) -> bool
        ensures { result ≡ is_active_in self.now.formula.groups group }
    {
        self.groups.is_active(group)
    }

    /// The clauses of the group of this number, active or not, in the order in which they came; none where it was never
    /// opened.
    pub fn group_clauses(&self, group: u32) -> &[LitList]
        ensures value { result.now ≡ clauses_at self.now.formula.groups group }
        ensures rows { AllByRecursion (IsRow self.now.formula.scopes) (clauses_at self.now.formula.groups group) }
    {
        match self.groups.group(group) {
            Some(found) => found.clauses(),
            None => &self.rows[..0],
        }
    }

    /// How many groups were opened. They stand at the places below it, by number, each number once.
    pub fn groups_len(&self) -> usize
        ensures value { result ≡ length self.now.formula.groups }
        ensures rising { AreRising self.now.formula.groups }
        ensures rows { AllByRecursion (IsRow self.now.formula.scopes) (grouped_in self.now.formula.groups) }
    {
        self.groups.all().len()
    }

    /// The group at a place.
    pub fn group(&self, place: usize) -> &Group
        requires { place < length self.now.formula.groups }
        ensures value { slice_get self.now.formula.groups place ≡ Some result.now }
        ensures rows { AllByRecursion (IsRow self.now.formula.scopes) result.now.clauses }
    {
        &self.groups.all()[place]
    }

    /// The place of the group of this number; none exactly where it was never opened.
    pub fn place_of(&self, group: u32) -> Option<usize>
        ensures { MatchOption result (is_group self.now.formula.groups group ≡ false)
            (IsGroupAt self.now.formula.groups group) }
    {
        self.groups.find(group).ok()
    }

    /// The variables that the next `pop` removes, in the order in which they were added; in version 1, and where no
    /// frame is pushed, none. Each is in the prefix, none comes twice, and neither a clause that stands below the top
    /// frame nor one of a group names any.
    pub fn top_vars(&self) -> &[Var]
        ensures value { result.now ≡ variables_on_top self.now.formula }
        ensures known { AllByRecursion (λ v. is_some (level_of self.now.formula.scopes v) ≡ true)
            (variables_on_top self.now.formula) }
        ensures distinct { AreDistinct (variables_on_top self.now.formula) }
        ensures below { AllByRecursion (NamesNone (variables_on_top self.now.formula))
            (clauses_in (popped self.now.formula.frames)) }
        ensures grouped { AllByRecursion (NamesNone (variables_on_top self.now.formula))
            (grouped_in self.now.formula.groups) }
        ensures never { self.now.formula.version ≡ Version.One → variables_on_top self.now.formula ≡ [] }
        ensures first { depth_of self.now.formula.frames ≡ 0 → variables_on_top self.now.formula ≡ [] }
    {
        vars_from(&self.vars, top_start(&self.starts))
    }

    /// The version of the script format that decides how long a variable stays.
    pub fn version(&self) -> Version
        ensures { result ≡ self.now.formula.version }
    {
        self.version
    }

    /// The assumptions, ascending by variable.
    pub fn assumptions(&self) -> &Assumptions
        ensures value { result.now ≡ self.now.formula.assumptions }
        ensures outer { AreOuter self.now.formula.scopes self.now.formula.assumptions }
        ensures ascending { IsAscending (variables_in self.now.formula.assumptions) }
    {
        let _ = self.assumptions.len();
        &self.assumptions
    }

    /// The number of pushed frames, at most `Frames::MAX_PUSHED`.
    pub fn depth(&self) -> usize
        ensures { result ≡ depth_of self.now.formula.frames }
    {
        self.starts.len()
    }
}

// How many variables came before the last of these frames.
fn top_start(starts: &[Start]) -> usize
    ensures { result ≡ last_vars starts.now }
{
    match starts.last() {
        Some(start) => start.vars,
        None => 0,
    }
}
