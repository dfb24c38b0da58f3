//! Conflicts that come up in games that are drawn.
ghost use Rattle.std.specs.Prelude.{IsTrue};
ghost use Rattle.derive.specs.State.{has_rows};

use super::{Asked, Board, Game, Told, is_pending, is_unit};
use derive::{Derivation, StepId};
use fixtures::{Random, literal, variable};
use prefix::{Clauses, Cubes, Lit, Prefix, Side, Var};
use std::alloc::Global;
use std::test::Fail;
use steps::Steps;
use trail::{Trail, Why};

// Puts a row over most of six variables at the end of a list.
fn draw_lits(random: &mut Random, lits: &mut Vec<Lit>) -> Result<(), Fail> {
    for number in 1..7 {
        let drawn = random.below(5);
        if drawn != 0 {
            lits.push(Lit::new(variable(number)?, drawn % 2 == 0))?;
        }
    }
    Ok(())
}

fn draw_row(alloc: Global, random: &mut Random) -> Result<Vec<Lit>, Fail> {
    let mut lits = Vec::new(alloc);
    draw_lits(random, &mut lits)?;
    Ok(lits)
}

impl<S: Side> Board<S> {
    // Whether a live step's row is bad.
    fn is_bad_at(&self, id: StepId) -> bool {
        self.derivation.is_live(id)
            && is_pending::<S>(&self.trail, &self.prefix, &None, self.derivation.lits(id))
    }

    // The literal in which a live step's row is unit, if there is one.
    fn unit_at(&self, id: StepId) -> Option<Lit> {
        if !self.derivation.is_live(id) {
            return None;
        }
        for lit in self.derivation.lits(id) {
            if is_unit::<S>(&self.trail, &self.prefix, self.derivation.lits(id), *lit) {
                return Some(*lit);
            }
        }
        None
    }

    // The first variable of six that may be decided.
    fn open_variable(&self) -> Option<Var> {
        let first = self.trail.first_open(&self.prefix);
        for number in 1..7 {
            let v = Var::new(number)?;
            if self.trail.value(v).is_none() && self.prefix.level(v) == first {
                return Some(v);
            }
        }
        None
    }

    // Whether what was learned, if anything was, took a resolution. Fails where it is no lesson.
    fn teaches(self, learned: Option<Asked>) -> Result<bool, Fail> {
        let Self {
            prefix,
            derivation,
            mut trail,
            ..
        } = self;
        has_resolved::<S>(&prefix, &derivation, &mut trail, learned)
    }
}

// The same of what a board has.
fn has_resolved<S: Side>(
    prefix: &Prefix,
    derivation: &Derivation,
    trail: &mut Trail,
    learned: Option<Asked>,
) -> Result<bool, Fail>
    requires { IsTrue (has_rows derivation.now) }
{
    match learned {
        None => Ok(false),
        Some(asked) => {
            if !is_lesson::<S>(prefix, derivation, trail, asked)? {
                return Err("another lesson than the plain definitions")?;
            }
            Ok(asked.taken > 0)
        }
    }
}

// Whether a lesson is right by the plain definitions, where nothing is assumed: no literal is pivot-type; or the row is
// unit in the literal once the trail is cut to the level, and not once it is cut to the one below.
fn is_lesson<S: Side>(
    prefix: &Prefix,
    derivation: &Derivation,
    trail: &mut Trail,
    asked: Asked,
) -> Result<bool, Fail>
    requires { IsTrue (has_rows derivation.now) }
{
    if !derivation.is_live(asked.row) {
        return Ok(false);
    }
    let lits = derivation.lits(asked.row);
    match asked.told {
        Told::End => Ok(is_end::<S>(prefix, lits)),
        Told::Learn(number, level) => {
            let lit = literal(number)?;
            Ok(is_unit_first_at::<S>(trail, prefix, lits, lit, level))
        }
        _ => Ok(false),
    }
}

fn is_end<S: Side>(prefix: &Prefix, lits: &[Lit]) -> bool {
    for lit in lits {
        if prefix.is_pivot::<S>(*lit) {
            return false;
        }
    }
    true
}

fn is_unit_first_at<S: Side>(
    trail: &mut Trail,
    prefix: &Prefix,
    lits: &[Lit],
    lit: Lit,
    level: usize,
) -> bool {
    trail.undo_to(level);
    if !is_unit::<S>(trail, prefix, lits, lit) {
        return false;
    }
    if level == 0 {
        return true;
    }
    trail.undo_to(level - 1);
    !is_unit::<S>(trail, prefix, lits, lit)
}

impl<S: Side> Game<S> {
    // The first of the rows that is bad.
    fn bad_row(&self) -> Option<StepId> {
        for id in &self.rows {
            if self.board.is_bad_at(*id) {
                return Some(*id);
            }
        }
        None
    }

    // The first of the rows that is unit, with its literal.
    fn unit_row(&self) -> Option<(StepId, Lit)> {
        for id in &self.rows {
            if let Some(lit) = self.board.unit_at(*id) {
                return Some((*id, lit));
            }
        }
        None
    }

    // Propagates, or decides where nothing is unit; nothing where a row is bad or all is assigned.
    fn turn(&mut self, random: &mut Random) -> Result<(), Fail> {
        if self.bad_row().is_some() {
            return Ok(());
        }
        match self.unit_row() {
            Some((id, lit)) => self.assign(lit, Why::Propagated(id)),
            None => self.decide(random),
        }
    }

    fn decide(&mut self, random: &mut Random) -> Result<(), Fail> {
        match self.board.open_variable() {
            None => Ok(()),
            Some(v) => self.assign(Lit::new(v, random.below(2) == 0), Why::Decided),
        }
    }

    // Puts in a row that is drawn.
    fn put_drawn(&mut self, random: &mut Random) -> Result<(), Fail> {
        let lits = draw_row(self.alloc, random)?;
        self.put(&lits)
    }

    fn put_many(&mut self, random: &mut Random) -> Result<(), Fail> {
        for _row in 0..32 {
            self.put_drawn(random)?;
        }
        Ok(())
    }

    // Rows that are drawn, and six turns, as there are six variables.
    fn play(&mut self, random: &mut Random) -> Result<(), Fail> {
        self.put_many(random)?;
        for _turn in 0..6 {
            self.turn(random)?;
        }
        Ok(())
    }

    fn analyse(&mut self, id: StepId) -> Result<Asked, Fail> {
        let mut steps = Steps::new(1000);
        let (told, row) = self.board.analyse(id, &mut steps)?;
        let taken = steps.spent();
        Ok(Asked { told, row, taken })
    }

    // What is learned of a conflict, if there is one.
    fn learn(&mut self) -> Result<Option<Asked>, Fail> {
        match self.bad_row() {
            None => Ok(None),
            Some(id) => Ok(Some(self.analyse(id)?)),
        }
    }

    // Plays at random, and learns.
    fn play_and_learn(&mut self, seed: u32) -> Result<Option<Asked>, Fail> {
        self.play(&mut Random::new(seed))?;
        self.learn()
    }
}

// A game over six variables, mostly of the side's pivot quantifier.
fn game_of<S: Side>(alloc: Global, pivot_first: bool) -> Result<Game<S>, Fail> {
    if pivot_first {
        return Game::new(alloc, true, &[2, 1, 3]);
    }
    Game::new(alloc, false, &[1, 2, 1, 2])
}

// Plays a game at random up to a conflict, if there is one, and analyses it; whether that took a resolution.
fn conflict_teaches<S: Side>(alloc: Global, seed: u32) -> Result<bool, Fail> {
    let mut game = game_of::<S>(alloc, seed % 2 == 0)?;
    let learned = game.play_and_learn(seed)?;
    game.board.teaches(learned)
}

// At least fifty conflicts of one side that take a resolution.
fn conflicts_teach<S: Side>(alloc: Global) -> Result<(), Fail> {
    let mut conflicts: u32 = 0;
    for seed in 0..200 {
        if conflict_teaches::<S>(alloc, seed)? {
            conflicts = conflicts.saturating_add(1);
        }
    }
    if conflicts < 50 {
        return Err("too few conflicts")?;
    }
    Ok(())
}

#[test]
fn random_conflicts_teach_on_both_sides(rt: HostRuntime) -> Result<(), Fail> {
    conflicts_teach::<Clauses>(rt.alloc())?;
    conflicts_teach::<Cubes>(rt.alloc())
}
