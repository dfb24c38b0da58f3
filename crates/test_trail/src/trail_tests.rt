//! Tests of `trail`.
ghost use Rattle.std.specs.Prelude.{◌≡◌, ◌≢◌};
ghost use Rattle.trail.specs.declared.allowed.Allowed.TheVariants.{Nothing};
ghost use Rattle.trail.specs.State.{IsTrailFor};

use fixtures::{by_turns, decide, propagate, variable};
use prefix::{Lit, Prefix, Quant, Var};
use std::alloc::Global;
use std::marker::Model;
use std::test::Fail;
use steps::Steps;
use trail::{Trail, Why};

// What a test does to a trail, or what it looks whether it is so. Variables are named by their numbers.
#[derive(Clone, Copy)]
enum Turn {
    Decide(u32, bool),
    // From step 7; or each variable from one number to before another.
    Propagate(u32, bool),
    PropagateEach(u32, u32),
    // Step 9 becomes the reason, and is clean.
    Clean(u32),
    Undo(usize),
    Clear,
    // Stops, and looks whether it tells this budget, number of variables, and number of assignments.
    Stop(u64, usize, u64),
    // Looks whether a variable is unassigned, or stands with such a value, at that place and level: decided, or
    // propagated from this step, which is clean or not.
    Unassigned(u32),
    Decided(u32, bool, usize, usize),
    Propagated(u32, bool, usize, usize, usize, bool),
    // Looks whether these are the length, the last level, and how often a literal was assigned.
    Counts(usize, usize, u64),
    // Looks whether there is this room; how many literals stand up to a level; and which scope is the first open one.
    Room(usize),
    LenTo(usize, usize),
    FirstOpen(Option<usize>),
}

// Value, place, level and cause of a variable, and whether its reason is clean.
type Looked = (
    Option<bool>,
    Option<usize>,
    Option<usize>,
    Option<Why>,
    bool,
);

const UNASSIGNED: Looked = (None, None, None, None, false);

// A literal that stands with such a value, at that place and level, for that cause, which is clean or not.
fn standing(value: bool, place: usize, level: usize, why: Why, clean: bool) -> Looked {
    (Some(value), Some(place), Some(level), Some(why), clean)
}

fn look_up(trail: &Trail, v: Var) -> Looked {
    (
        trail.value(v),
        trail.place(v),
        trail.level_of(v),
        trail.why(v),
        trail.is_clean(v),
    )
}

// Whether the variable of a number looks so.
fn looks(trail: &Trail, number: u32, want: Looked) -> Result<bool, Fail> {
    Ok(look_up(trail, variable(number)?) == want)
}

// A trail with the prefix and the counter of its calls.
#[derive(Drop)]
struct Game {
    prefix: Prefix,
    trail: Trail,
    steps: Steps,
    may_decide: bool,
}

impl Model for Game {
    ghost use Rattle.std.specs.Prelude.{◌≡◌, ◌≢◌, IsTrue};
    ghost use Rattle.trail.specs.declared.allowed.Allowed.TheVariants.{Anything, Nothing};
    ghost use Rattle.trail.specs.State.{IsTrailFor, TrailState};

    ghost Value = { TrailState };

    ghost view = { λ g. g.trail };

    ghost invariant = { λ g.
        IsTrailFor g.prefix g.trail
        × (g.trail.allowed ≢ Nothing)
        × (IsTrue g.may_decide → g.trail.allowed ≡ Anything) };
}

impl Game {
    // An empty trail over scopes that have so many variables each, existential and universal by turns.
    fn new(alloc: Global, scopes: &[u64], budget: u64) -> Result<Self, Fail> {
        Ok(Self {
            prefix: by_turns(alloc, Quant::Exists, scopes)?,
            trail: Trail::new(alloc),
            steps: Steps::new(budget),
            may_decide: true,
        })
    }

    fn decide(&mut self, lit: Lit) -> Result<(), Fail> {
        if !self.may_decide {
            return Err("not after an undoing")?;
        }
        decide(&mut self.trail, &self.prefix, lit, &mut self.steps)
    }

    fn propagate(&mut self, lit: Lit) -> Result<(), Fail> {
        propagate(&mut self.trail, &self.prefix, lit, &mut self.steps)?;
        self.may_decide = true;
        Ok(())
    }

    fn clean(&mut self, v: Var) -> bool {
        match self.trail.why(v) {
            Some(Why::Propagated(_)) => {
                self.trail.set_clean(v, 9);
                true
            }
            _ => false,
        }
    }

    fn undo(&mut self, level: usize) {
        self.trail.undo_to(level);
        self.may_decide = false;
    }

    fn clear(&mut self) {
        self.trail.clear();
        self.may_decide = true;
    }

    // Stops where the budget is spent; whether it tells this.
    fn stops(&mut self, budget: u64, vars: usize, assigned: u64) -> bool {
        if self.steps.spent() != self.steps.budget() {
            return false;
        }
        let stopped = self.trail.stop(&self.prefix, &self.steps);
        self.may_decide = true;
        stopped.budget() == budget && stopped.vars() == vars && stopped.assigned() == assigned
    }

    fn counts(&self) -> (usize, usize, u64) {
        (self.trail.len(), self.trail.level(), self.trail.assigned())
    }

    fn first_open(&self) -> Option<usize> {
        self.trail.first_open(&self.prefix)
    }

    // Whether what a turn looks for is so.
    fn is_so(&self, turn: Turn) -> Result<bool, Fail> {
        match turn {
            Turn::Unassigned(number) => looks(&self.trail, number, UNASSIGNED),
            Turn::Decided(number, value, place, level) => {
                let want = standing(value, place, level, Why::Decided, false);
                looks(&self.trail, number, want)
            }
            Turn::Propagated(number, value, place, level, step, clean) => {
                let want = standing(value, place, level, Why::Propagated(step), clean);
                looks(&self.trail, number, want)
            }
            Turn::Counts(len, level, assigned) => Ok(self.counts() == (len, level, assigned)),
            Turn::Room(room) => Ok(self.trail.room() == room),
            Turn::LenTo(level, len) => Ok(self.trail.len_to(level) == len),
            Turn::FirstOpen(scope) => Ok(self.first_open() == scope),
            _ => Ok(false),
        }
    }

    // Propagates literals of each variable from one number to before another.
    fn propagate_each(&mut self, first: u32, end: u32) -> Result<(), Fail> {
        for number in first..end {
            self.propagate(Lit::new(variable(number)?, true))?;
        }
        Ok(())
    }

    // Assigns what a turn says; any other turn takes literals off.
    fn change(&mut self, turn: Turn) -> Result<(), Fail> {
        match turn {
            Turn::Decide(number, value) => self.decide(Lit::new(variable(number)?, value)),
            Turn::Propagate(number, value) => self.propagate(Lit::new(variable(number)?, value)),
            Turn::PropagateEach(first, end) => self.propagate_each(first, end),
            Turn::Undo(level) => {
                self.undo(level);
                Ok(())
            }
            _ => {
                self.clear();
                Ok(())
            }
        }
    }

    // Makes a turn; whether it could be made, and gave what it says.
    fn make(&mut self, turn: Turn) -> Result<bool, Fail> {
        match turn {
            Turn::Clean(number) => Ok(self.clean(variable(number)?)),
            Turn::Stop(budget, vars, assigned) => Ok(self.stops(budget, vars, assigned)),
            Turn::Decide(_, _)
            | Turn::Propagate(_, _)
            | Turn::PropagateEach(_, _)
            | Turn::Undo(_)
            | Turn::Clear => {
                self.change(turn)?;
                Ok(true)
            }
            _ => self.is_so(turn),
        }
    }

    // Makes turns. Fails with the place of the first one that isn't as it says, from 0.
    fn make_all(&mut self, turns: &[Turn]) -> Result<(), Fail> {
        for (place, turn) in turns.iter().enumerate() {
            if !self.make(*turn)? {
                return Err(("turn", place))?;
            }
        }
        Ok(())
    }
}

// The same with an empty trail over scopes that have so many variables each, and so many steps.
fn play(alloc: Global, scopes: &[u64], budget: u64, turns: &[Turn]) -> Result<(), Fail> {
    let mut game = Game::new(alloc, scopes, budget)?;
    game.make_all(turns)
}

#[test]
fn look_ups_answer_by_the_list(rt: HostRuntime) -> Result<(), Fail> {
    let turns = [
        Turn::Propagate(2, true),
        Turn::Decide(1, false),
        Turn::Propagate(3, true),
        Turn::Decided(1, false, 1, 1),
        Turn::Propagated(2, true, 0, 0, 7, false),
        Turn::Propagated(3, true, 2, 1, 7, false),
        Turn::Counts(3, 1, 3),
        Turn::Room(3),
        Turn::LenTo(0, 1),
        Turn::LenTo(1, 3),
        Turn::Undo(0),
        Turn::Counts(1, 0, 3),
        Turn::Unassigned(1),
        Turn::Propagated(2, true, 0, 0, 7, false),
        Turn::Unassigned(3),
    ];
    play(rt.alloc(), &[2, 1], 10, &turns)
}

// Undone, and assigned again.
#[test]
fn marks_of_clean_reasons_go_with_their_literals(rt: HostRuntime) -> Result<(), Fail> {
    let turns = [
        Turn::Decide(1, true),
        Turn::Propagate(2, true),
        Turn::Propagate(3, true),
        Turn::Clean(2),
        Turn::Decided(1, true, 0, 1),
        Turn::Propagated(2, true, 1, 1, 9, true),
        Turn::Propagated(3, true, 2, 1, 7, false),
        Turn::Undo(0),
        Turn::Unassigned(1),
        Turn::Unassigned(2),
        Turn::Propagate(2, true),
        Turn::Unassigned(1),
        Turn::Propagated(2, true, 0, 0, 7, false),
    ];
    play(rt.alloc(), &[2, 1], 10, &turns)
}

#[test]
fn a_stop_tells_what_was_assigned(rt: HostRuntime) -> Result<(), Fail> {
    let turns = [
        Turn::Decide(1, true),
        Turn::Propagate(2, true),
        Turn::Undo(0),
        Turn::Counts(0, 0, 2),
        Turn::Stop(2, 3, 2),
        Turn::Counts(0, 0, 0),
    ];
    play(rt.alloc(), &[2, 1], 2, &turns)
}

// Assumes two literals, once it is seen that they may be assumed; whether there were steps for both.
fn assume(
    trail: &mut Trail,
    prefix: &Prefix,
    first: Lit,
    second: Lit,
    steps: &mut Steps,
) -> Result<bool, Fail>
    requires kept { IsTrailFor prefix.now trail.old }
    requires allowed { trail.old.allowed ≢ Nothing }
{
    trail.reserve(first.var().number() as usize)?;
    trail.reserve(second.var().number() as usize)?;
    let outer = prefix.level(first.var()) == Some(1) && prefix.level(second.var()) == Some(1);
    if !outer || first.var() == second.var() || !trail.is_empty() {
        return Err("not to be assumed")?;
    }
    Ok(trail.assume_all(prefix, &[first, second], steps).is_ok())
}

// What assuming 1 and not 2 leaves: whether there were steps for both, the length, the last level, how often a literal
// was assigned, and the value of 2, if that is assumed.
type Assumed = (bool, usize, usize, u64, Option<bool>);

// The value of a variable that was assumed.
fn assumed_value(trail: &Trail, v: Var) -> Option<bool> {
    match trail.why(v) {
        Some(Why::Assumed) => trail.value(v),
        _ => None,
    }
}

// What assuming left on a trail, where there were steps for both or weren't, and the second literal is over a variable.
fn left(trail: &Trail, is_paid: bool, second: Var) -> Assumed {
    let value = assumed_value(trail, second);
    (is_paid, trail.len(), trail.level(), trail.assigned(), value)
}

// Assumes 1 and not 2 by these steps.
fn assume_by(trail: &mut Trail, prefix: &Prefix, steps: &mut Steps) -> Result<Assumed, Fail>
    requires kept { IsTrailFor prefix.now trail.old }
    requires allowed { trail.old.allowed ≢ Nothing }
{
    let (one, two) = (variable(1)?, variable(2)?);
    let (first, second) = (Lit::new(one, true), Lit::new(two, false));
    let is_paid = assume(trail, prefix, first, second, steps)?;
    Ok(left(trail, is_paid, two))
}

// The same where the budget is this.
fn assume_two(trail: &mut Trail, prefix: &Prefix, budget: u64) -> Result<Assumed, Fail>
    requires kept { IsTrailFor prefix.now trail.old }
    requires allowed { trail.old.allowed ≢ Nothing }
{
    let mut steps = Steps::new(budget);
    assume_by(trail, prefix, &mut steps)
}

// The same on a new trail.
fn assume_anew(alloc: Global, budget: u64) -> Result<Assumed, Fail> {
    let prefix = by_turns(alloc, Quant::Exists, &[2, 1])?;
    let mut trail = Trail::new(alloc);
    assume_two(&mut trail, &prefix, budget)
}

// Assuming leaves what it should with one step, and with two. Fails with the budget where it doesn't.
fn are_undone(alloc: Global) -> Result<(), Fail> {
    if assume_anew(alloc, 1)? != (false, 0, 0, 1, None) {
        return Err("with one step")?;
    }
    if assume_anew(alloc, 2)? != (true, 2, 0, 2, Some(false)) {
        return Err("with two steps")?;
    }
    Ok(())
}

#[test]
fn assumptions_that_cant_all_be_paid_are_undone(rt: HostRuntime) -> Result<(), Fail> {
    are_undone(rt.alloc())
}

#[test]
fn scopes_without_variables_are_passed_over(rt: HostRuntime) -> Result<(), Fail> {
    let turns = [
        Turn::FirstOpen(Some(2)),
        Turn::Decide(1, true),
        Turn::FirstOpen(Some(8)),
        Turn::Decide(2, true),
        Turn::FirstOpen(None),
    ];
    play(rt.alloc(), &[0, 1, 0, 0, 0, 0, 0, 1, 0], 10, &turns)
}

#[test]
fn full_scopes_are_passed_over_until_they_are_undone(rt: HostRuntime) -> Result<(), Fail> {
    let turns = [
        Turn::PropagateEach(2, 251),
        Turn::FirstOpen(Some(1)),
        Turn::Decide(1, true),
        Turn::FirstOpen(Some(251)),
        Turn::Decide(251, true),
        Turn::Propagate(252, true),
        Turn::FirstOpen(Some(253)),
        Turn::Undo(0),
        Turn::Propagate(1, false),
        Turn::FirstOpen(Some(251)),
        Turn::Clear,
        Turn::FirstOpen(Some(1)),
    ];
    play(rt.alloc(), &[1; 300], 1000, &turns)
}

#[test]
fn a_half_assigned_scope_is_open(rt: HostRuntime) -> Result<(), Fail> {
    let turns = [
        Turn::Propagate(1, true),
        Turn::FirstOpen(Some(1)),
        Turn::Decide(2, true),
        Turn::FirstOpen(Some(2)),
        Turn::Undo(0),
        Turn::FirstOpen(Some(1)),
    ];
    play(rt.alloc(), &[2, 1], 10, &turns)
}
