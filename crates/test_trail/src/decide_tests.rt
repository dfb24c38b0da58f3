//! Tests of `decide`.
use decide::Decider;
use fixtures::{by_turns, variable};
use prefix::{Lit, Prefix, Quant};
use std::alloc::Global;
use std::marker::Model;
use std::test::Fail;
use steps::Steps;
use trail::{Trail, Why};

// What a test does to a decider.
#[derive(Clone, Copy)]
enum Turn {
    // Makes room for so many variables.
    Reserve(usize),
    Bump(u32),
    // Counts a clause of one literal.
    Count(u32, bool),
    // So many times.
    Decay(u32),
    // Undoes all: who was assigned waits then.
    Undo,
    // Empties the trail, and doesn't tell.
    Clear,
    // Decides four times.
    Fill,
    // The same, the second time with the other sign where that is so, and looks which literals these are, by their
    // numbers, with 0 where none is left; or which the last two are.
    Decide(bool, [i32; 4]),
    DecideLast(bool, [i32; 2]),
}

// Decays so many times.
fn decay(decider: &mut Decider, times: u32) {
    for _ in 0..times {
        decider.decay();
    }
}

// A decider with the trail that it decides on, which may take a decision.
#[derive(Drop)]
struct Game {
    prefix: Prefix,
    trail: Trail,
    decider: Decider,
    steps: Steps,
}

impl Model for Game {
    ghost use Rattle.std.specs.Prelude.{◌≡◌};
    ghost use Rattle.trail.specs.declared.allowed.Allowed.TheVariants.{Anything};
    ghost use Rattle.trail.specs.State.{IsTrailFor, TrailState};

    ghost Value = { TrailState };

    ghost view = { λ g. g.trail };

    ghost invariant = { λ g. IsTrailFor g.prefix g.trail × (g.trail.allowed ≡ Anything) };
}

impl Game {
    // An empty trail over so many existential variables and then a universal one, and a decider without room.
    fn new(alloc: Global, first: u64) -> Result<Self, Fail> {
        let prefix = by_turns(alloc, Quant::Exists, &[first, 1])?;
        Ok(Self {
            prefix,
            trail: Trail::new(alloc),
            decider: Decider::new(alloc),
            steps: Steps::new(100),
        })
    }

    // Decides what comes next, with its sign or with the other one; answers the signed number, or 0.
    fn decide(&mut self, turned: bool) -> Result<i32, Fail> {
        match self.decider.next_decision(&self.trail, &self.prefix) {
            None => Ok(0),
            Some(next) => {
                let lit = Lit::new(next.var(), next.is_positive() != turned);
                self.trail.reserve(lit.var().number() as usize)?;
                self.trail
                    .assign(&self.prefix, lit, Why::Decided, &mut self.steps)?;
                Ok(lit.number())
            }
        }
    }

    // Decides four times, the second time with the other sign where `turned` is so.
    fn decide_four(&mut self, turned: bool) -> Result<[i32; 4], Fail> {
        let first = self.decide(false)?;
        let second = self.decide(turned)?;
        let third = self.decide(false)?;
        let fourth = self.decide(false)?;
        Ok([first, second, third, fourth])
    }

    // Decides four times; whether it decided these.
    fn decides(&mut self, turned: bool, want: [i32; 4]) -> Result<bool, Fail> {
        Ok(self.decide_four(turned)? == want)
    }

    // Decides four times; whether it decided these at last.
    fn decides_last(&mut self, turned: bool, want: [i32; 2]) -> Result<bool, Fail> {
        let [_, _, third, fourth] = self.decide_four(turned)?;
        Ok([third, fourth] == want)
    }

    fn reserve(&mut self, room: usize) -> Result<(), Fail> {
        self.decider.reserve(room)?;
        Ok(())
    }

    fn bump(&mut self, number: u32) -> Result<(), Fail> {
        self.decider.bump(variable(number)?);
        Ok(())
    }

    fn count(&mut self, number: u32, positive: bool) -> Result<(), Fail> {
        let v = variable(number)?;
        self.decider.count(&[Lit::new(v, positive)]);
        Ok(())
    }

    fn decay(&mut self, times: u32) {
        decay(&mut self.decider, times);
    }

    fn undo(&mut self) {
        self.decider.undoing(&self.trail, &self.prefix, 0);
        self.trail.clear();
    }

    fn clear(&mut self) {
        self.trail.clear();
    }

    // Makes a turn that looks for nothing.
    fn change(&mut self, turn: Turn) -> Result<(), Fail> {
        match turn {
            Turn::Reserve(room) => self.reserve(room),
            Turn::Bump(number) => self.bump(number),
            Turn::Count(number, positive) => self.count(number, positive),
            Turn::Decay(times) => {
                self.decay(times);
                Ok(())
            }
            Turn::Undo => {
                self.undo();
                Ok(())
            }
            Turn::Clear => {
                self.clear();
                Ok(())
            }
            _ => {
                self.decide_four(false)?;
                Ok(())
            }
        }
    }

    // Makes a turn; whether it gave what it says.
    fn make(&mut self, turn: Turn) -> Result<bool, Fail> {
        match turn {
            Turn::Decide(turned, want) => self.decides(turned, want),
            Turn::DecideLast(turned, want) => self.decides_last(turned, want),
            _ => {
                self.change(turn)?;
                Ok(true)
            }
        }
    }

    // Makes turns. Fails with the place of the first one that isn't as it says, from 0.
    fn make_all(&mut self, turns: &[Turn]) -> Result<(), Fail> {
        for (place, turn) in turns.iter().enumerate() {
            if !self.make(*turn)? {
                return Err(("turn", place))?;
            }
        }
        Ok(())
    }

    // The same once there is room for so many variables.
    fn play(&mut self, room: usize, turns: &[Turn]) -> Result<(), Fail> {
        self.reserve(room)?;
        self.make_all(turns)
    }
}

// The same with a new decider, over so many existential variables.
fn play_over(alloc: Global, first: u64, room: usize, turns: &[Turn]) -> Result<(), Fail> {
    let mut game = Game::new(alloc, first)?;
    game.play(room, turns)
}

// The same over the existential variables 1 and 2 and the universal 3.
fn play(alloc: Global, room: usize, turns: &[Turn]) -> Result<(), Fail> {
    play_over(alloc, 2, room, turns)
}

// Without a bump variable 2 comes first here; so each test of a bump bumps variable 1. The second time it decides with
// the saved signs.
#[test]
fn decisions_go_from_scope_to_scope(rt: HostRuntime) -> Result<(), Fail> {
    let turns = [
        Turn::Decide(true, [-2, 1, 3, 0]),
        Turn::Undo,
        Turn::Decide(false, [-2, 1, 3, 0]),
    ];
    play(rt.alloc(), 3, &turns)
}

// The second time it decides with the saved signs.
#[test]
fn the_first_signs_are_by_what_was_counted(rt: HostRuntime) -> Result<(), Fail> {
    let turns = [
        Turn::Count(1, true),
        Turn::Count(2, true),
        Turn::Count(2, false),
        Turn::Count(3, true),
        Turn::Decide(false, [-2, 1, -3, 0]),
        Turn::Undo,
        Turn::Decide(false, [-2, 1, -3, 0]),
    ];
    play(rt.alloc(), 3, &turns)
}

// Of a variable that nobody put in before: it comes in with its scope.
#[test]
fn a_bump_counts_for_who_comes_in_with_the_scope(rt: HostRuntime) -> Result<(), Fail> {
    let turns = [Turn::Bump(1), Turn::Decide(false, [-1, -2, 3, 0])];
    play(rt.alloc(), 3, &turns)
}

#[test]
fn a_bump_counts_for_who_is_undone_later(rt: HostRuntime) -> Result<(), Fail> {
    let turns = [
        Turn::Fill,
        Turn::Bump(1),
        Turn::Undo,
        Turn::Decide(false, [-1, -2, 3, 0]),
    ];
    play(rt.alloc(), 3, &turns)
}

#[test]
fn a_bump_counts_for_who_waits_already(rt: HostRuntime) -> Result<(), Fail> {
    let turns = [
        Turn::Fill,
        Turn::Undo,
        Turn::Bump(1),
        Turn::Decide(false, [-1, -2, 3, 0]),
    ];
    play(rt.alloc(), 3, &turns)
}

#[test]
fn later_bumps_count_more(rt: HostRuntime) -> Result<(), Fail> {
    let turns = [
        Turn::Fill,
        Turn::Undo,
        Turn::Bump(2),
        Turn::Bump(2),
        Turn::Bump(2),
        Turn::Decay(1000),
        Turn::Bump(1),
        Turn::Decide(false, [-1, -2, 3, 0]),
    ];
    play(rt.alloc(), 3, &turns)
}

// Of three variables with equal priorities the greatest comes first; the middle one once it was bumped, then the others
// as before; and after the least was bumped twice, that one.
#[test]
fn the_one_that_was_bumped_comes_first_of_three(rt: HostRuntime) -> Result<(), Fail> {
    let turns = [
        Turn::Decide(false, [-3, -2, -1, 4]),
        Turn::Undo,
        Turn::Bump(2),
        Turn::Decide(false, [-2, -3, -1, 4]),
        Turn::Bump(1),
        Turn::Bump(1),
        Turn::Undo,
        Turn::Decide(false, [-1, -2, -3, 4]),
    ];
    play_over(rt.alloc(), 3, 4, &turns)
}

// A bump just before all priorities are divided counts less than one just behind that, whether the variables wait all
// the while or come back later.
#[test]
fn priorities_are_divided_for_who_waits_and_who_does_not(rt: HostRuntime) -> Result<(), Fail> {
    let waiting = [
        Turn::Fill,
        Turn::Undo,
        Turn::Decay(430),
        Turn::Bump(2),
        Turn::Decay(10),
        Turn::Bump(1),
        Turn::Decide(false, [-1, -2, 3, 0]),
    ];
    let assigned = [
        Turn::Fill,
        Turn::Decay(430),
        Turn::Bump(2),
        Turn::Decay(10),
        Turn::Bump(1),
        Turn::Undo,
        Turn::Decide(false, [-1, -2, 3, 0]),
    ];
    play(rt.alloc(), 3, &waiting)?;
    play(rt.alloc(), 3, &assigned)
}

// Over a thousand decays an early bump comes to nothing, and behind them two bumps still count more than the next one.
#[test]
fn priorities_stay_in_order_over_a_thousand_decays(rt: HostRuntime) -> Result<(), Fail> {
    let early = [
        Turn::Fill,
        Turn::Undo,
        Turn::Decay(420),
        Turn::Bump(2),
        Turn::Decay(1000),
        Turn::Bump(1),
        Turn::Decide(false, [-1, -2, 3, 0]),
    ];
    let late = [
        Turn::Fill,
        Turn::Undo,
        Turn::Decay(1000),
        Turn::Bump(1),
        Turn::Bump(1),
        Turn::Decay(1),
        Turn::Bump(2),
        Turn::Decide(false, [-1, -2, 3, 0]),
    ];
    play(rt.alloc(), 3, &early)?;
    play(rt.alloc(), 3, &late)
}

// At first without room, and then with room.
#[test]
fn what_was_not_told_is_found_all_the_same(rt: HostRuntime) -> Result<(), Fail> {
    let turns = [
        Turn::DecideLast(true, [3, 0]),
        Turn::Clear,
        Turn::Reserve(3),
        Turn::DecideLast(false, [3, 0]),
    ];
    play(rt.alloc(), 0, &turns)
}
