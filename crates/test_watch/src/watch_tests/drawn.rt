//! Moves that are drawn, and events that are compared with the plain definitions.
ghost use Rattle.std.specs.Prelude.{◌<◌};

use super::desk::Desk;
use fixtures::{Random, variable};
use prefix::{Lit, Side};
use rows::RowId;
use std::alloc::Global;
use std::test::Fail;
use watch::Event;

// How often each event came.
#[derive(Drop)]
struct Tally {
    unit: u32,
    bad: u32,
    quiet: u32,
}

impl Tally {
    fn new() -> Self {
        Self {
            unit: 0,
            bad: 0,
            quiet: 0,
        }
    }

    fn count(&mut self, event: &Event) {
        match event {
            Event::Unit(_, _) => self.unit = self.unit.saturating_add(1),
            Event::Bad(_) => self.bad = self.bad.saturating_add(1),
            Event::Quiet => self.quiet = self.quiet.saturating_add(1),
        }
    }

    // Whether each event came at times.
    fn is_full(&self) -> bool {
        self.unit >= 100 && self.bad >= 100 && self.quiet >= 100
    }
}

// A literal over one of twelve variables.
fn draw_lit(random: &mut Random) -> Result<Lit, Fail> {
    let number = random.below(12) + 1;
    let positive = random.below(2) == 0;
    Ok(Lit::new(variable(number)?, positive))
}

// Puts at most five of them at the end of a list, now and then twice the same or one with its negation.
fn draw_lits(random: &mut Random, row: &mut Vec<Lit>) -> Result<(), Fail> {
    for _ in 0..random.below(6) {
        row.push(draw_lit(random)?)?;
    }
    Ok(())
}

fn draw_row(alloc: Global, random: &mut Random) -> Result<Vec<Lit>, Fail> {
    let mut row = Vec::new(alloc);
    draw_lits(random, &mut row)?;
    Ok(row)
}

// Puts in a row that is drawn and attaches it; whether it could be attached.
fn add_some<S: Side>(desk: &mut Desk<S>, alloc: Global, random: &mut Random) -> Result<bool, Fail> {
    let row = draw_row(alloc, random)?;
    desk.add(&row)
}

// Detaches a row once in so many times, if it is attached.
fn detach_some<S: Side>(desk: &mut Desk<S>, id: RowId, random: &mut Random, times: u32)
    requires { 0 < times }
{
    if random.below(times) == 0 {
        desk.detach(id);
    }
}

// Cuts the trail to a level that is drawn, or empties it.
fn undo_some<S: Side>(desk: &mut Desk<S>, random: &mut Random) {
    let level = random.below(4) as usize;
    if level == 3 {
        desk.clear();
    } else {
        desk.undo(level);
    }
}

// Propagates a literal, and decides another one behind it where that may be decided then.
fn assign_both<S: Side>(desk: &mut Desk<S>, lit: Lit, next: Lit) -> Result<(), Fail> {
    desk.propagate(lit)?;
    if !desk.is_next(next) {
        return Ok(());
    }
    desk.decide(next)
}

// Propagates a literal that is drawn, where it is open, and now and then decides another one.
fn assign_some<S: Side>(desk: &mut Desk<S>, random: &mut Random) -> Result<(), Fail> {
    let (lit, next) = (draw_lit(random)?, draw_lit(random)?);
    if desk.is_assigned(lit.var()) {
        return Ok(());
    }
    assign_both(desk, lit, next)
}

// Now and then detaches the row that an event tells.
fn detach_told<S: Side>(desk: &mut Desk<S>, event: &Event, random: &mut Random) {
    match event {
        Event::Unit(id, _) => detach_some(desk, *id, random, 3),
        Event::Bad(id) => detach_some(desk, *id, random, 3),
        Event::Quiet => (),
    }
}

// Compares the next event with the plain definitions, counts it, and now and then detaches the row that it tells.
fn compare<S: Side>(desk: &mut Desk<S>, random: &mut Random, tally: &mut Tally) -> bool {
    match desk.next() {
        None => false,
        Some(event) => {
            let is_right = desk.is_right(&event);
            tally.count(&event);
            detach_told(desk, &event, random);
            is_right
        }
    }
}

// One of these; whether all is right.
fn move_some<S: Side>(
    desk: &mut Desk<S>,
    alloc: Global,
    random: &mut Random,
    tally: &mut Tally,
) -> Result<bool, Fail> {
    match random.below(16) {
        0 | 1 => add_some(desk, alloc, random),
        2 => {
            let id = random.below(400) as usize;
            detach_some(desk, id, random, 1);
            Ok(true)
        }
        3 => {
            undo_some(desk, random);
            Ok(true)
        }
        4..=8 => {
            assign_some(desk, random)?;
            Ok(true)
        }
        _ => Ok(compare(desk, random, tally)),
    }
}

// Many of these; whether all is right.
fn move_often<S: Side>(
    desk: &mut Desk<S>,
    alloc: Global,
    random: &mut Random,
    tally: &mut Tally,
) -> Result<bool, Fail> {
    for _ in 0..2500 {
        if !move_some(desk, alloc, random, tally)? {
            return Ok(false);
        }
    }
    Ok(true)
}

// The same, and whether each event came at times.
fn fills<S: Side>(
    desk: &mut Desk<S>,
    alloc: Global,
    random: &mut Random,
    tally: &mut Tally,
) -> Result<bool, Fail> {
    Ok(move_often(desk, alloc, random, tally)? && tally.is_full())
}

// Many of these, from a seed; whether all is right, and each event comes at times.
pub(crate) fn are_right<S: Side>(
    desk: &mut Desk<S>,
    alloc: Global,
    seed: u32,
) -> Result<bool, Fail> {
    let mut random = Random::new(seed);
    let mut tally = Tally::new();
    fills(desk, alloc, &mut random, &mut tally)
}
