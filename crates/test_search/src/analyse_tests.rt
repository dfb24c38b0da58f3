//! Tests of `analyse` and `clean`.
ghost use Rattle.std.specs.Prelude.{◌≡◌, ◌≤◌, IsTrue, IsFalse, IfOk, None, Contains};
ghost use Rattle.prefix.specs.Scopes.{all_variables};
ghost use Rattle.calculus.specs.Rows.{IsRow, is_bad_at, is_pivot};
ghost use Rattle.calculus.specs.Search.{IsBadRow, IsKept, IsLater, IsPending, IsUnitIn, MayStand, is_bad_now, value_on};
ghost use Rattle.derive.specs.State.{has_rows, row_of};
ghost use Rattle.trail.specs.Causes.{cause_of};
ghost use Rattle.trail.specs.State.{IsPropagated, IsTrailFor};
ghost use Rattle.clean.specs.Reasons.{IsReducedStep};
ghost use Rattle.test_search.specs.Tested.{HasUnitRow, IsStored, MayPend, is_finished};

mod conflicts;
mod shortened;

use analyse::{Lesson, analyse};
use clean::{clean, clean_reason, resolve_away, resolve_by_reason};
use derive::{Derivation, Step, StepId};
use fixtures::{by_turns, holds, is_row, literal, row, variable};
use memory::NoMemory;
use prefix::{Clauses, Cubes, Lit, Prefix, Quant, Side, Var};
use reduce::{Row, reduce};
use std::alloc::Global;
use std::marker::{Model, PhantomData};
use std::test::Fail;
use steps::{Steps, Stop};
use trail::{Trail, Why};

// The side's pivot quantifier, or the other one.
fn first_of<S: Side>(pivot_first: bool) -> Quant {
    if pivot_first {
        S::PIVOT
    } else {
        S::PIVOT.other()
    }
}

// What is looked at before a call, so that it may be made.

// Whether two literals are one.
fn is_same(a: Lit, b: Lit) -> bool
    ensures { IsTrue result → a ≡ b }
{
    a.var() == b.var() && a.is_positive() == b.is_positive()
}

// Whether a literal is bad on the trail.
fn is_bad<S: Side>(trail: &Trail, lit: Lit) -> bool
    ensures { result ≡ is_bad_now S.PIVOT (value_on trail.now.placed) lit }
{
    match trail.value(lit.var()) {
        Some(value) => (value == lit.is_positive()) == S::BAD,
        None => false,
    }
}

// Whether a literal is the one to keep.
fn is_kept(kept: &Option<Lit>, lit: Lit) -> bool
    ensures { IsTrue result → IsKept kept.now lit }
{
    match kept {
        Some(kept) => is_same(lit, *kept),
        None => false,
    }
}

// Whether a literal is of a later scope than the one to keep.
fn is_later(prefix: &Prefix, kept: &Option<Lit>, lit: Lit) -> bool
    ensures { IsTrue result → IsLater prefix.now kept.now lit }
{
    match kept {
        Some(kept) => prefix.depth(kept.var()) < prefix.depth(lit.var()),
        None => true,
    }
}

// Whether a literal may stand in a pending row.
fn may_pend<S: Side>(trail: &Trail, prefix: &Prefix, kept: &Option<Lit>, lit: Lit) -> bool
    ensures { IsTrue result → MayPend S.PIVOT prefix.now trail.now.placed kept.now lit }
{
    if is_kept(kept, lit) || is_bad::<S>(trail, lit) {
        return true;
    }
    if trail.value(lit.var()).is_some() || prefix.is_pivot::<S>(lit) {
        return false;
    }
    is_later(prefix, kept, lit)
}

// Whether a row is pending.
fn is_pending<S: Side>(trail: &Trail, prefix: &Prefix, kept: &Option<Lit>, lits: &[Lit]) -> bool
    ensures { IsTrue result → IsPending S.PIVOT prefix.now (value_on trail.now.placed) kept.now lits.now }
{
    for lit in lits {
        if !may_pend::<S>(trail, prefix, kept, *lit) {
            return false;
        }
    }
    true
}

// Whether a row is unit in a literal.
fn is_unit<S: Side>(trail: &Trail, prefix: &Prefix, lits: &[Lit], lit: Lit) -> bool
    ensures { IsTrue result → IsUnitIn S.PIVOT prefix.now (value_on trail.now.placed) lits.now lit }
{
    if trail.value(lit.var()).is_some() || !prefix.is_pivot::<S>(lit) {
        return false;
    }
    holds(lits, lit) && is_pending::<S>(trail, prefix, &Some(lit), lits)
}

// Whether a step is a finish.
fn is_finish(step: Step) -> bool
    ensures { result ≡ is_finished step }
{
    matches!(step, Step::Finished(_))
}

// Whether a quantifier is the side's pivot.
fn is_pivot_quantifier<S: Side>(quant: Quant) -> bool
    ensures { IsTrue result → quant ≡ S.PIVOT }
{
    quant == S::PIVOT
}

// Whether a step is a live one of the side, no finish, and reduced.
fn is_reduced<S: Side>(
    derivation: &Derivation,
    prefix: &Prefix,
    id: StepId,
    alloc: Global,
) -> Result<bool, Fail>
    requires { IsTrue (has_rows derivation.now) }
    ensures { IfOk result (λ b. IsTrue b → IsReducedStep S.PIVOT prefix.now derivation.now id) }
{
    if !derivation.is_live(id) {
        return Ok(false);
    }
    if !is_pivot_quantifier::<S>(derivation.side(id)) {
        return Ok(false);
    }
    if is_finish(derivation.step(id)) {
        return Ok(false);
    }
    let mut out = Row::new(alloc);
    reduce::<S>(prefix, derivation.lits(id), &mut out)?;
    Ok(out.len() == derivation.lits(id).len())
}

// Whether a variable of the prefix is unassigned, and there is room for it.
fn is_new(trail: &Trail, prefix: &Prefix, v: Var) -> bool
    ensures known { IsTrue result → Contains (all_variables prefix.now) v }
    ensures unassigned { IsTrue result → value_on trail.now.placed v ≡ None }
    ensures room { IsTrue result → v ≤ trail.now.room }
{
    if prefix.level(v).is_none() {
        return false;
    }
    if trail.value(v).is_some() {
        return false;
    }
    v.number() as usize <= trail.room()
}

// Whether a variable may be assigned for that cause.
fn may_stand(trail: &Trail, prefix: &Prefix, v: Var, why: Why) -> bool
    requires { IsTrailFor prefix.now trail.now }
    ensures { IsTrue result → MayStand prefix.now trail.now.placed v (cause_of why) }
{
    match why {
        Why::Assumed => trail.is_empty() && prefix.level(v) == Some(1),
        Why::Decided => prefix.level(v).is_some() && prefix.level(v) == trail.first_open(prefix),
        Why::Propagated(_) => true,
    }
}

// The literal that makes a literal good.
fn good_literal<S: Side>(lit: Lit) -> Lit
    ensures over { result.variable ≡ lit.variable }
    ensures good { IsFalse (is_bad_at S.PIVOT result.positive lit) }
{
    if S::BAD { lit.negate() } else { lit }
}

// Whether a literal of a row may be made good for that cause: where it is propagated, a reduced step's row is unit in
// it.
fn has_reason<S: Side>(
    derivation: &Derivation,
    trail: &Trail,
    prefix: &Prefix,
    lit: Lit,
    why: Why,
) -> Result<bool, Fail>
    requires { IsTrue (has_rows derivation.now) }
    ensures { IfOk result (λ b. IsTrue b →
        HasUnitRow S.PIVOT prefix.now derivation.now trail.now.placed lit (cause_of why)) }
{
    match why {
        Why::Propagated(id) => {
            if !is_reduced::<S>(derivation, prefix, id, trail.alloc())? {
                return Ok(false);
            }
            Ok(is_unit::<S>(trail, prefix, derivation.lits(id), lit))
        }
        _ => Ok(true),
    }
}

// Whether a row may be cleaned and analysed: it is a reduced step's, and bad.
fn is_bad_row<S: Side>(
    derivation: &Derivation,
    trail: &Trail,
    prefix: &Prefix,
    id: StepId,
) -> Result<bool, Fail>
    requires { IsTrue (has_rows derivation.now) }
    ensures step { IfOk result (λ b. IsTrue b → IsReducedStep S.PIVOT prefix.now derivation.now id) }
    ensures bad { IfOk result (λ b. IsTrue b → IsBadRow S.PIVOT prefix.now (value_on trail.now.placed)
        (row_of derivation.now id)) }
{
    if !is_reduced::<S>(derivation, prefix, id, trail.alloc())? {
        return Ok(false);
    }
    Ok(is_pending::<S>(trail, prefix, &None, derivation.lits(id)))
}

// Whether a variable was propagated.
fn is_propagated(trail: &Trail, v: Var) -> bool
    ensures { IsTrue result → IsPropagated trail.now.placed v }
{
    matches!(trail.why(v), Some(Why::Propagated(_)))
}

// Whether a literal of a row may be resolved away.
fn is_resolvable<S: Side>(trail: &Trail, prefix: &Prefix, lits: &[Lit], lit: Lit) -> bool
    ensures stands { IsTrue result → Contains lits.now lit }
    ensures pivot { IsTrue result → IsTrue (is_pivot S.PIVOT prefix.now lit) }
    ensures bad { IsTrue result → IsTrue (is_bad_now S.PIVOT (value_on trail.now.placed) lit) }
    ensures propagated { IsTrue result → IsPropagated trail.now.placed lit.variable }
{
    holds(lits, lit)
        && prefix.is_pivot::<S>(lit)
        && is_bad::<S>(trail, lit)
        && is_propagated(trail, lit.var())
}

// Puts a row of the side in, and its reduction, whose id is the answer.
fn put<S: Side>(
    derivation: &mut Derivation,
    prefix: &Prefix,
    lits: &[Lit],
) -> Result<StepId, NoMemory>
    requires stored { IsStored S.PIVOT prefix.now derivation.old }
    requires row { IsRow prefix.now lits.now }
    ensures stored { IsStored S.PIVOT prefix.now derivation.new }
{
    match S::PIVOT {
        Quant::Exists => {
            let (_, reduction) = derivation.input_clause(prefix, lits, 0)?;
            Ok(reduction)
        }
        Quant::Forall => {
            let input = derivation.input_cube(lits)?;
            derivation.reduce(prefix, input)
        }
    }
}

// What is asked of a board, for the last row, a variable, or a literal of the last row.
#[derive(Clone, Copy)]
enum Ask {
    Analyse,
    Clean,
    CleanReason(u32),
    ResolveAway(i32),
    ResolveByReason(i32),
}

// What is told, beside a row.
#[derive(Clone, Copy, PartialEq)]
enum Told {
    // The number of the literal, and the level.
    Learn(i32, usize),
    End,
    Cleaned,
    Spent,
    NoMemory,
}

// What is told, with which row, after so many steps.
#[derive(Clone, Copy)]
struct Asked {
    told: Told,
    row: StepId,
    taken: u64,
}

fn told_by_stop(stop: &Stop) -> (Told, StepId) {
    match stop {
        Stop::Spent => (Told::Spent, 0),
        Stop::NoMemory => (Told::NoMemory, 0),
    }
}

fn told_by_lesson(answer: &Result<Lesson, Stop>) -> (Told, StepId) {
    match answer {
        Ok(
            Lesson::Learn {
                row,
                lit,
                level,
                ..
            },
        ) => (Told::Learn(lit.number(), *level), *row),
        Ok(Lesson::End { row }) => (Told::End, *row),
        Err(stop) => told_by_stop(stop),
    }
}

fn told_by_cleaning(answer: &Result<StepId, Stop>) -> (Told, StepId) {
    match answer {
        Ok(row) => (Told::Cleaned, *row),
        Err(stop) => told_by_stop(stop),
    }
}

// A prefix, a derivation of rows of one side, and a trail with reasons of that side. Each call is made once it is seen
// that it may be.
#[derive(Drop)]
struct Board<S: Side> {
    prefix: Prefix,
    derivation: Derivation,
    trail: Trail,
    side: PhantomData<S>,
}

impl<S: Side> Model for Board<S> {
    ghost use Rattle.trail.specs.State.{TrailState};
    ghost use Rattle.test_search.specs.Tested.{IsReady};

    ghost Value = { TrailState };

    ghost view = { λ b. b.trail };

    ghost invariant = { λ b. IsReady S.PIVOT b.prefix b.derivation b.trail };
}

impl<S: Side> Board<S> {
    // No rows and an empty trail, with room for so many variables.
    fn new(alloc: Global, prefix: Prefix, room: usize) -> Result<Self, Fail> {
        let mut trail = Trail::new(alloc);
        trail.reserve(room)?;
        Ok(Self {
            prefix,
            derivation: Derivation::new(alloc),
            trail,
            side: PhantomData,
        })
    }

    // Puts a row in, while nothing is assigned.
    fn put(&mut self, lits: &[Lit]) -> Result<StepId, Fail> {
        if !self.trail.is_empty() || !is_row(&self.prefix, lits) {
            return Err("not to be put in")?;
        }
        Ok(put::<S>(&mut self.derivation, &self.prefix, lits)?)
    }

    // Assigns a variable so that a literal of a row is good.
    fn assign(&mut self, lit: Lit, why: Why, steps: &mut Steps) -> Result<(), Fail> {
        if !is_new(&self.trail, &self.prefix, lit.var())
            || !may_stand(&self.trail, &self.prefix, lit.var(), why)
        {
            return Err("not to be assigned")?;
        }
        if !has_reason::<S>(&self.derivation, &self.trail, &self.prefix, lit, why)? {
            return Err("no reason")?;
        }
        let good = good_literal::<S>(lit);
        self.trail.assign(&self.prefix, good, why, steps)?;
        Ok(())
    }

    fn analyse(&mut self, id: StepId, steps: &mut Steps) -> Result<(Told, StepId), Fail> {
        if !is_bad_row::<S>(&self.derivation, &self.trail, &self.prefix, id)? {
            return Err("not to be analysed")?;
        }
        let (derivation, trail) = (&mut self.derivation, &mut self.trail);
        let lesson = analyse::<S>(derivation, trail, &self.prefix, id, steps);
        Ok(told_by_lesson(&lesson))
    }

    fn clean(&mut self, id: StepId, steps: &mut Steps) -> Result<(Told, StepId), Fail> {
        if !is_bad_row::<S>(&self.derivation, &self.trail, &self.prefix, id)? {
            return Err("not to be cleaned")?;
        }
        let (derivation, trail) = (&mut self.derivation, &mut self.trail);
        let cleaned = clean::<S>(derivation, trail, &self.prefix, id, None, steps);
        Ok(told_by_cleaning(&cleaned))
    }

    fn clean_reason(&mut self, v: Var, steps: &mut Steps) -> Result<(Told, StepId), Fail> {
        if !is_propagated(&self.trail, v) || self.prefix.quant(v) != Some(S::PIVOT) {
            return Err("no reason")?;
        }
        let (derivation, trail) = (&mut self.derivation, &mut self.trail);
        let cleaned = clean_reason::<S>(derivation, trail, &self.prefix, v, steps);
        Ok(told_by_cleaning(&cleaned))
    }

    fn resolve_away(
        &mut self,
        id: StepId,
        lit: Lit,
        steps: &mut Steps,
    ) -> Result<(Told, StepId), Fail> {
        if !is_bad_row::<S>(&self.derivation, &self.trail, &self.prefix, id)?
            || !is_resolvable::<S>(&self.trail, &self.prefix, self.derivation.lits(id), lit)
        {
            return Err("not to be resolved")?;
        }
        let (derivation, trail) = (&mut self.derivation, &mut self.trail);
        let resolved = resolve_away::<S>(derivation, trail, &self.prefix, id, lit, steps);
        Ok(told_by_cleaning(&resolved))
    }

    fn resolve_by_reason(
        &mut self,
        id: StepId,
        lit: Lit,
        steps: &mut Steps,
    ) -> Result<(Told, StepId), Fail> {
        if !is_bad_row::<S>(&self.derivation, &self.trail, &self.prefix, id)?
            || !is_resolvable::<S>(&self.trail, &self.prefix, self.derivation.lits(id), lit)
        {
            return Err("not to be resolved")?;
        }
        let (derivation, trail) = (&mut self.derivation, &mut self.trail);
        let resolved = resolve_by_reason::<S>(derivation, trail, &self.prefix, id, lit, steps);
        Ok(told_by_cleaning(&resolved))
    }

    fn ask(&mut self, ask: Ask, id: StepId, steps: &mut Steps) -> Result<(Told, StepId), Fail> {
        match ask {
            Ask::Analyse => self.analyse(id, steps),
            Ask::Clean => self.clean(id, steps),
            Ask::CleanReason(number) => self.clean_reason(variable(number)?, steps),
            Ask::ResolveAway(number) => self.resolve_away(id, literal(number)?, steps),
            Ask::ResolveByReason(number) => self.resolve_by_reason(id, literal(number)?, steps),
        }
    }

    // Whether a live step's row has these literals.
    fn has_row(&self, id: StepId, lits: &[Lit]) -> bool {
        self.derivation.is_live(id) && self.derivation.lits(id) == lits
    }

    // The id that comes next.
    fn next_id(&self) -> StepId {
        self.derivation.next_id()
    }

    // Whether the reason of a variable is marked.
    fn is_marked(&self, v: Var) -> bool {
        self.trail.is_clean(v)
    }
}

// What a test does. A row is given by the numbers of its literals, filled up with 0.
#[derive(Clone, Copy)]
enum Move {
    // Puts in a row and its reduction.
    Put([i32; 3]),
    // Assigns the variable of a literal so that this one is good: assumed, decided, or from the row with that number.
    Assume(i32),
    Decide(i32),
    Propagate(i32, usize),
    // Asks with so many steps left; what is told, with which row, after so many steps.
    Ask(Ask, u64, Told, [i32; 3], u64),
    // Looks whether the reason of a variable is marked.
    Marked(u32, bool),
}

// A board with the reductions of the rows that were put in, and a counter for its assignments.
#[derive(Drop)]
struct Game<S: Side> {
    alloc: Global,
    board: Board<S>,
    rows: Vec<StepId>,
    steps: Steps,
}

impl<S: Side> Game<S> {
    // Over scopes of so many variables each by turns, six in all at most.
    fn new(alloc: Global, pivot_first: bool, sizes: &[u64]) -> Result<Self, Fail> {
        let prefix = by_turns(alloc, first_of::<S>(pivot_first), sizes)?;
        Ok(Self {
            alloc,
            board: Board::new(alloc, prefix, 6)?,
            rows: Vec::new(alloc),
            steps: Steps::new(1000),
        })
    }

    fn put(&mut self, lits: &[Lit]) -> Result<(), Fail> {
        let id = self.board.put(lits)?;
        self.rows.push(id)?;
        Ok(())
    }

    fn put_row(&mut self, numbers: &[i32]) -> Result<(), Fail> {
        let lits = row(self.alloc, numbers)?;
        self.put(&lits)
    }

    fn assign(&mut self, lit: Lit, why: Why) -> Result<(), Fail> {
        self.board.assign(lit, why, &mut self.steps)
    }

    fn propagate(&mut self, number: i32, index: usize) -> Result<(), Fail> {
        let reason = *self.rows.get(index).ok_or("no row")?;
        self.assign(literal(number)?, Why::Propagated(reason))
    }

    fn make(&mut self, next: Move) -> Result<(), Fail> {
        match next {
            Move::Put(numbers) => self.put_row(&numbers),
            Move::Assume(number) => self.assign(literal(number)?, Why::Assumed),
            Move::Decide(number) => self.assign(literal(number)?, Why::Decided),
            Move::Propagate(number, index) => self.propagate(number, index),
            Move::Ask(ask, budget, told, numbers, taken) => {
                self.see(ask, budget, told, &numbers, taken)
            }
            Move::Marked(number, marked) => self.see_mark(number, marked),
        }
    }

    fn make_all(&mut self, moves: &[Move]) -> Result<(), Fail> {
        for next in moves {
            self.make(*next)?;
        }
        Ok(())
    }

    // Sees that the reason of a variable is marked, or isn't.
    fn see_mark(&self, number: u32, marked: bool) -> Result<(), Fail> {
        if self.board.is_marked(variable(number)?) != marked {
            return Err("another mark")?;
        }
        Ok(())
    }

    // Asks for the last row with so many steps.
    fn ask(&mut self, ask: Ask, budget: u64) -> Result<Asked, Fail> {
        let last = *self.rows.last().ok_or("no row")?;
        let mut steps = Steps::new(budget);
        let (told, row) = self.board.ask(ask, last, &mut steps)?;
        let taken = steps.spent();
        Ok(Asked { told, row, taken })
    }

    // Sees that this is told, with a row of these literals unless it is a stop, and at most two rows a step come in.
    fn see(
        &mut self,
        ask: Ask,
        budget: u64,
        told: Told,
        numbers: &[i32],
        taken: u64,
    ) -> Result<(), Fail> {
        let lits = row(self.alloc, numbers)?;
        self.see_lits(ask, budget, told, &lits, taken)
    }

    // The same of literals.
    fn see_lits(
        &mut self,
        ask: Ask,
        budget: u64,
        told: Told,
        lits: &[Lit],
        taken: u64,
    ) -> Result<(), Fail> {
        let before = self.board.next_id();
        let answer = self.ask(ask, budget)?;
        if answer.told != told || answer.taken != taken {
            return Err("another answer")?;
        }
        if told != Told::Spent && !self.board.has_row(answer.row, lits) {
            return Err("another row")?;
        }
        let most = before.saturating_add((taken as usize).saturating_mul(2));
        if self.board.next_id() > most {
            return Err("too many rows")?;
        }
        Ok(())
    }
}

// A table of moves on one side, over scopes of so many variables each by turns.
fn run_on<S: Side>(
    alloc: Global,
    pivot_first: bool,
    sizes: &[u64],
    moves: &[Move],
) -> Result<(), Fail> {
    let mut game = Game::<S>::new(alloc, pivot_first, sizes)?;
    game.make_all(moves)
}

// The same table on both sides.
fn run(alloc: Global, pivot_first: bool, sizes: &[u64], moves: &[Move]) -> Result<(), Fail> {
    run_on::<Clauses>(alloc, pivot_first, sizes, moves)?;
    run_on::<Cubes>(alloc, pivot_first, sizes, moves)
}

// The blocker 3 of the open 2 is resolved away; no pivot-type literal is left.
#[test]
fn rows_are_cleaned(rt: HostRuntime) -> Result<(), Fail> {
    let moves = [
        Move::Put([3, 0, 0]),
        Move::Put([2, -3, 0]),
        Move::Propagate(3, 0),
        Move::Ask(Ask::Clean, 0, Told::Spent, [0; 3], 0),
        Move::Ask(Ask::Analyse, 0, Told::Spent, [0; 3], 0),
        Move::Ask(Ask::Clean, 1, Told::Cleaned, [2, 0, 0], 1),
        Move::Ask(Ask::Analyse, 1, Told::End, [2, 0, 0], 1),
    ];
    run(rt.alloc(), true, &[1, 1, 1], &moves)
}

// The row is made into one that turns the decision, and so it is where the literal alone is resolved away; with no step
// left both stop, and with one neither does.
#[test]
fn decisions_are_turned(rt: HostRuntime) -> Result<(), Fail> {
    let moves = [
        Move::Put([-1, 2, 0]),
        Move::Put([-1, -2, 0]),
        Move::Decide(1),
        Move::Propagate(2, 0),
        Move::Ask(Ask::Analyse, 0, Told::Spent, [0; 3], 0),
        Move::Ask(Ask::Analyse, 1, Told::Learn(-1, 0), [-1, 0, 0], 1),
        Move::Ask(Ask::ResolveAway(-2), 0, Told::Spent, [0; 3], 0),
        Move::Ask(Ask::ResolveAway(-2), 1, Told::Cleaned, [-1, 0, 0], 1),
    ];
    run(rt.alloc(), true, &[2], &moves)
}

// An assumption isn't turned: the same row is an end row.
#[test]
fn assumptions_end(rt: HostRuntime) -> Result<(), Fail> {
    let moves = [
        Move::Put([-1, 2, 0]),
        Move::Put([-1, -2, 0]),
        Move::Assume(1),
        Move::Propagate(2, 0),
        Move::Ask(Ask::Analyse, 1, Told::End, [-1, 0, 0], 1),
    ];
    run(rt.alloc(), true, &[2], &moves)
}

// Two steps are due: with one it stops after that one.
#[test]
fn steps_are_counted(rt: HostRuntime) -> Result<(), Fail> {
    let moves = [
        Move::Put([1, 0, 0]),
        Move::Put([-1, 2, 0]),
        Move::Put([-1, -2, 0]),
        Move::Propagate(1, 0),
        Move::Propagate(2, 1),
        Move::Ask(Ask::Analyse, 1, Told::Spent, [0; 3], 1),
        Move::Ask(Ask::Analyse, 2, Told::End, [0; 3], 2),
    ];
    run(rt.alloc(), true, &[2], &moves)
}

// The decided literal of the earlier scope counts for the level, though it isn't pivot-type.
#[test]
fn earlier_scopes_count(rt: HostRuntime) -> Result<(), Fail> {
    let moves = [
        Move::Put([1, 2, 0]),
        Move::Decide(-1),
        Move::Decide(-2),
        Move::Ask(Ask::Analyse, 0, Told::Learn(2, 1), [1, 2, 0], 0),
    ];
    run(rt.alloc(), false, &[1, 1], &moves)
}

// The decided literal of the later scope doesn't.
#[test]
fn later_scopes_are_left_out(rt: HostRuntime) -> Result<(), Fail> {
    let moves = [
        Move::Put([-3, 0, 0]),
        Move::Put([1, 2, 3]),
        Move::Propagate(-3, 0),
        Move::Decide(-1),
        Move::Decide(-2),
        Move::Ask(Ask::Analyse, 0, Told::Learn(1, 0), [1, 2, 3], 0),
    ];
    run(rt.alloc(), true, &[1, 1, 1], &moves)
}

// The literal that is learned was propagated, not decided.
#[test]
fn propagated_literals_are_learned(rt: HostRuntime) -> Result<(), Fail> {
    let moves = [
        Move::Put([-2, 3, 0]),
        Move::Put([-1, -3, 0]),
        Move::Decide(1),
        Move::Decide(2),
        Move::Propagate(3, 0),
        Move::Ask(Ask::Analyse, 0, Told::Learn(-3, 1), [-1, -3, 0], 0),
    ];
    run(rt.alloc(), true, &[3], &moves)
}

// A reason stays as it is where it is resolved with, unless it is asked for clean: that takes a resolution, and a
// reduction in which 2 goes.
#[test]
fn reasons_are_cleaned_on_demand(rt: HostRuntime) -> Result<(), Fail> {
    let moves = [
        Move::Put([3, 0, 0]),
        Move::Put([1, 2, -3]),
        Move::Put([-3, 0, 0]),
        Move::Propagate(3, 0),
        Move::Propagate(1, 1),
        Move::Ask(Ask::Analyse, 1, Told::End, [0; 3], 1),
        Move::Marked(3, false),
        Move::Marked(1, false),
        Move::Ask(Ask::CleanReason(1), 0, Told::Spent, [0; 3], 0),
        Move::Ask(Ask::CleanReason(1), 1, Told::Spent, [0; 3], 1),
        Move::Marked(1, false),
        Move::Ask(Ask::CleanReason(1), 2, Told::Cleaned, [1, 0, 0], 2),
        Move::Marked(1, true),
        Move::Ask(Ask::CleanReason(1), 0, Told::Cleaned, [1, 0, 0], 0),
    ];
    run(rt.alloc(), true, &[1, 1, 1], &moves)
}

// The reason of -3 is taken as it stands, with 4, and the lesson keeps the open 2, unless there are steps to take 4
// off, and 2 with it.
#[test]
fn open_literals_are_learned(rt: HostRuntime) -> Result<(), Fail> {
    let moves = [
        Move::Put([-4, 0, 0]),
        Move::Put([1, -3, 4]),
        Move::Put([2, 3, 0]),
        Move::Propagate(-4, 0),
        Move::Decide(-1),
        Move::Propagate(-3, 1),
        Move::Ask(Ask::Analyse, 0, Told::Spent, [0; 3], 0),
        Move::Ask(Ask::ResolveByReason(3), 1, Told::Cleaned, [1, 2, 4], 1),
        Move::Ask(Ask::Analyse, 2, Told::Learn(1, 0), [1, 2, 4], 1),
        Move::Ask(Ask::Analyse, 3, Told::Learn(1, 0), [1, 0, 0], 3),
        Move::Marked(3, false),
        Move::Ask(Ask::Clean, 4, Told::Cleaned, [1, 0, 0], 3),
        Move::Marked(3, true),
    ];
    run(rt.alloc(), true, &[1, 1, 2], &moves)
}

// The reason of 1 holds 2 and the row -2, so it is made clean before: two steps, and two more for the row.
#[test]
fn reasons_that_clash_are_cleaned(rt: HostRuntime) -> Result<(), Fail> {
    let moves = [
        Move::Put([3, 0, 0]),
        Move::Put([1, 2, -3]),
        Move::Put([-1, -2, -3]),
        Move::Propagate(3, 0),
        Move::Propagate(1, 1),
        Move::Ask(Ask::Analyse, 0, Told::Spent, [0; 3], 0),
        Move::Ask(Ask::Analyse, 3, Told::Spent, [0; 3], 3),
        Move::Marked(1, true),
        Move::Ask(Ask::ResolveByReason(-1), 1, Told::Cleaned, [-2, -3, 0], 1),
        Move::Ask(Ask::Analyse, 2, Told::End, [-2, 0, 0], 2),
    ];
    run(rt.alloc(), true, &[1, 1, 1], &moves)
}
