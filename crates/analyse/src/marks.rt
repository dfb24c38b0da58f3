//! Which literals of a row are implied by others. Whether the shortened row is a part of the row is looked at when it
//! is there (`minimise`), so that the proof needs nothing of these marks.
ghost use Rattle.std.specs.Prelude.{IsTrue};
ghost use Rattle.derive.specs.State.{has_rows};

use derive::Derivation;
use memory::NoMemory;
use prefix::{Lit, Prefix, Side, Var};
use trail::{Trail, Why};

// What is known of a variable.
#[derive(Clone, Copy, Debug, PartialEq, Eq)]
pub(crate) enum Mark {
    // Nothing yet.
    Unknown,
    // It stands in the row, and stays there.
    Stays,
    // It was propagated, and what its reason has beside it stands in the row, is implied, or goes by reduction.
    Implied,
    // That isn't so.
    Needed,
}

// A variable that was propagated, of whose reason the literals from a place on are to be looked at.
#[derive(Debug, Drop)]
struct Waiting {
    var: Var,
    from: usize,
}

// What a look at a reason says of its variable.
#[derive(Debug, Drop)]
enum Look {
    Implied,
    Needed,
    // This one has to be known before, and then the literals from a place on.
    Asks { var: Var, from: usize },
}

/// What is known of each variable, where a row is to be had without its pivot-type literals that are implied by others;
/// not of that literal, which stays. Reasons are looked at as they stand, each once at most. This says nothing that a
/// proof rests on.
pub(crate) fn marks_of<S: Side>(
    derivation: &Derivation,
    trail: &Trail,
    prefix: &Prefix,
    row: &[Lit],
    unit: Lit,
) -> Result<Vec<Mark>, NoMemory>
    requires { IsTrue (has_rows derivation.now) }
{
    let mut marks = Vec::new(trail.alloc());
    marks.resize(trail.room(), Mark::Unknown)?;
    for lit in row {
        set(&mut marks, lit.var(), Mark::Stays);
    }
    let deepest = deepest_pivot::<S>(prefix, row);
    let mut waiting = Vec::new(trail.alloc());
    for lit in row {
        if lit.var() == unit.var() || !prefix.is_pivot::<S>(*lit) {
            continue;
        }
        waiting.push(Waiting {
            var: lit.var(),
            from: 0,
        })?;
        if is_implied::<S>(derivation, trail, prefix, deepest, &mut marks, &mut waiting)? {
            set(&mut marks, lit.var(), Mark::Implied);
        } else {
            set(&mut marks, lit.var(), Mark::Stays);
        }
    }
    Ok(marks)
}

// What is known of a variable.
pub(crate) fn mark_of(marks: &Vec<Mark>, v: Var) -> Mark {
    match marks.get(v.index()) {
        Some(mark) => *mark,
        None => Mark::Needed,
    }
}

// Notes what is known of a variable.
fn set(marks: &mut Vec<Mark>, v: Var, mark: Mark) {
    let index = v.index();
    if index < marks.len() {
        marks[index] = mark;
    }
}

// The greatest depth of a row's pivot-type literals.
fn deepest_pivot<S: Side>(prefix: &Prefix, row: &[Lit]) -> usize {
    let mut deepest = 0;
    for lit in row {
        if prefix.is_pivot::<S>(*lit) {
            deepest = prefix.depth(lit.var()).max(deepest);
        }
    }
    deepest
}

// Whether the variables of a list are implied, of which the last is looked at first, and each before waits for the one
// after it. The list is empty then.
fn is_implied<S: Side>(
    derivation: &Derivation,
    trail: &Trail,
    prefix: &Prefix,
    deepest: usize,
    marks: &mut Vec<Mark>,
    waiting: &mut Vec<Waiting>,
) -> Result<bool, NoMemory>
    requires { IsTrue (has_rows derivation.now) }
{
    // Each variable is put on the list once, and each turn takes one off or puts one on.
    for _turn in 0..trail.room().saturating_mul(2) {
        let Some(last) = waiting.pop() else {
            return Ok(true);
        };
        match look_at::<S>(derivation, trail, prefix, deepest, marks, &last) {
            Look::Implied => set(marks, last.var, Mark::Implied),
            Look::Needed => {
                set(marks, last.var, Mark::Needed);
                give_up(marks, waiting);
                return Ok(false);
            }
            Look::Asks { var, from } => {
                waiting.push(Waiting {
                    var: last.var,
                    from,
                })?;
                waiting.push(Waiting { var, from: 0 })?;
            }
        }
    }
    give_up(marks, waiting);
    Ok(false)
}

// Empties a list of variables, which are needed.
fn give_up(marks: &mut Vec<Mark>, waiting: &mut Vec<Waiting>) {
    while let Some(last) = waiting.pop() {
        set(marks, last.var, Mark::Needed);
    }
}

// What a look at a variable's reason says.
fn look_at<S: Side>(
    derivation: &Derivation,
    trail: &Trail,
    prefix: &Prefix,
    deepest: usize,
    marks: &Vec<Mark>,
    waiting: &Waiting,
) -> Look
    requires { IsTrue (has_rows derivation.now) }
{
    let Some(Why::Propagated(id)) = trail.why(waiting.var) else {
        return Look::Needed;
    };
    if !derivation.is_live(id) {
        return Look::Needed;
    }
    let row = derivation.lits(id);
    for at in waiting.from..row.len() {
        let var = row[at].var();
        if var == waiting.var {
            continue;
        }
        match mark_of(marks, var) {
            Mark::Stays | Mark::Implied => continue,
            Mark::Unknown if prefix.is_pivot::<S>(row[at]) => {
                return Look::Asks { var, from: at + 1 };
            }
            _ => {
                if prefix.is_pivot::<S>(row[at]) || prefix.depth(var) <= deepest {
                    return Look::Needed;
                }
            }
        }
    }
    Look::Implied
}
