//! The walk along the lists of rows that watch literals that became bad. A list is walked while rows leave it: the row
//! behind is read first, and every row in front of the walk left or has a good literal. `attach`, `detach`, a cut and
//! rows that wait let the walk be forgotten, and the list is then walked from its front. It ends, since ranks fall
//! along a list. A step takes 1.9 searches of a row so, where it took 3.7 with each woken row moved among those that
//! wait and back (`adders-12`).
ghost use Rattle.std.specs.Prelude.{◌≡◌, ℕ, ◌+◌, ◌^◌, ◌<◌, ◌≤◌, All, List, [], IfSome, IsFalse, IsTrue, IsSome, None, Some, length, min, vec_capacity};
ghost use Rattle.calculus.specs.Search.{literals_on, value_on};
ghost use Rattle.watch.specs.Pairs.{is_free_pivot, watch_name as name_of_watch};
ghost use Rattle.watch.specs.Links.{IsLinked, LeadsOnElsewhere, Moves, Relinks, first_of, is_attached, owner};
ghost use Rattle.watch.specs.Families.{base_of, lists_of, other_of};
ghost use Rattle.watch.specs.Events.{IsEvent};
ghost use Rattle.watch.specs.State.{AreHeld, AreKept, GoOn, HasLists, IsBoard, KeepsRows, NoneCame, NoneWaits, Passes, progress, waits};
ghost use Rattle.watch.specs.Walks.{IsBadWatch, IsSifting, IsWalking};

use super::board::{
    FIRST, Family, HINT, NEXT, SECOND, bad_by, front, hint_for, is_good_watch, keeper, note_calm,
    start_of, take_second, watch_name, watched,
};
use super::choice::{Choice, choose, choose_with, is_free};
use super::event::Event;
use super::lists::{Lists, put_in, take_out, write};
use prefix::{Lit, Prefix, Side};
use rows::{RowId, Rows};
use trail::Trail;

// Takes a row out of its lists, and puts it in front of one of each family.
#[inline(always)]
fn watch_both<S: Side>(
    first: &mut Lists,
    second: &mut Lists,
    rows: &mut Rows,
    id: RowId,
    one: usize,
    two: usize,
)
    requires board { IsBoard S.PIVOT first.old second.old rows.old }
    requires attached { IsTrue (is_attached S.PIVOT rows.old id) }
    requires one { one < length first.old }
    requires two { two < length second.old }
    requires apart { 0 < one }
    ensures board { IsBoard S.PIVOT first.new second.new rows.new }
    ensures ones { Moves S.PIVOT 0 rows.old rows.new id (Some one) }
    ensures twos { Moves S.PIVOT 3 rows.old rows.new id (Some two) }
    ensures other_ones { LeadsOnElsewhere 0 rows.old rows.new id }
    ensures other_twos { LeadsOnElsewhere 3 rows.old rows.new id }
    ensures kept { KeepsRows S.PIVOT rows.old rows.new }
    ensures first { length first.new ≡ length first.old }
    ensures second { length second.new ≡ length second.old }
{
    take_out::<S>(first, rows, FIRST, id);
    take_second::<S>(second, rows, id);
    put_in::<S>(first, rows, FIRST, one, id);
    put_in::<S>(second, rows, SECOND, two, id);
}

// Takes a row out of a list, and puts it in front of another one.
#[inline(always)]
fn watch_else<S: Side>(lists: &mut Lists, rows: &mut Rows, base: usize, name: usize, id: RowId)
    requires base { base ≤ 3 }
    requires name { name < length lists.old }
    requires linked { IsLinked S.PIVOT lists.old rows.old base }
    requires stands { IsSome (owner S.PIVOT rows.old base id) }
    ensures linked { IsLinked S.PIVOT lists.new rows.new base }
    ensures moved { Moves S.PIVOT base rows.old rows.new id (Some name) }
    ensures kept { Relinks S.PIVOT base rows.old rows.new }
    ensures others { LeadsOnElsewhere base rows.old rows.new id }
    ensures size { length lists.new ≡ length lists.old }
{
    take_out::<S>(lists, rows, base, id);
    put_in::<S>(lists, rows, base, name, id);
}

// Takes a row out of its list of a family, and puts it in front of another one.
#[inline(always)]
fn watch_one<S: Side>(
    first: &mut Lists,
    second: &mut Lists,
    rows: &mut Rows,
    family: Family,
    id: RowId,
    name: usize,
)
    requires board { IsBoard S.PIVOT first.old second.old rows.old }
    requires stands { IsSome (owner S.PIVOT rows.old (base_of family) id) }
    requires settled { IsFalse (waits (owner S.PIVOT rows.old 0 id)) }
    requires name { name < length (lists_of family first.old second.old) }
    requires apart { 0 < name }
    ensures board { IsBoard S.PIVOT first.new second.new rows.new }
    ensures moved { Moves S.PIVOT (base_of family) rows.old rows.new id (Some name) }
    ensures aside { (i : ℕ) → owner S.PIVOT rows.new (base_of (other_of family)) i
        ≡ owner S.PIVOT rows.old (base_of (other_of family)) i }
    ensures others { LeadsOnElsewhere (base_of family) rows.old rows.new id }
    ensures kept { KeepsRows S.PIVOT rows.old rows.new }
    ensures first { length first.new ≡ length first.old }
    ensures second { length second.new ≡ length second.old }
{
    match family {
        Family::First => watch_else::<S>(first, rows, FIRST, name, id),
        Family::Second => watch_else::<S>(second, rows, SECOND, name, id),
    }
}

// The literal that the rows of a list watch, if it is pivot-type and not bad.
fn free_other<S: Side>(prefix: &Prefix, trail: &Trail, name: Option<usize>) -> Option<Lit>
    ensures { IfSome result (λ l. (name ≡ Some (name_of_watch l))
        × IsTrue (is_free_pivot S.PIVOT prefix.now (value_on trail.now.placed) l)) }
{
    let lit = watched(name?)?;
    if is_free::<S>(prefix, trail, lit) {
        return Some(lit);
    }
    None
}

// Passes a row that watches a literal that is bad by one of a family and a free pivot-type literal by the other one: it
// watches another literal in place of the bad one, or stays where another one is good, or it is unit.
fn pass_free<S: Side>(
    first: &mut Lists,
    second: &mut Lists,
    family: Family,
    id: RowId,
    name: usize,
    free: Lit,
    trail: &Trail,
    prefix: &Prefix,
    rows: &mut Rows,
) -> Option<Event>
    requires kept { AreKept S.PIVOT prefix.now (progress (literals_on trail.now.placed) [] 0 0)
        first.old second.old rows.old }
    requires both { length second.old ≡ length first.old }
    requires stands { owner S.PIVOT rows.old (base_of family) id ≡ Some name }
    requires bad { IsBadWatch S.PIVOT (value_on trail.now.placed) name }
    requires aside { owner S.PIVOT rows.old (base_of (other_of family)) id ≡ Some (name_of_watch free) }
    requires free { IsTrue (is_free_pivot S.PIVOT prefix.now (value_on trail.now.placed) free) }
    ensures goes { GoOn S.PIVOT prefix.now (literals_on trail.now.placed) first.old second.old rows.old
        first.new second.new rows.new }
    ensures kept { KeepsRows S.PIVOT rows.old rows.new }
    ensures event { IfSome result (IsEvent S.PIVOT prefix.now (value_on trail.now.placed) rows.new) }
    ensures passed { result ≡ None
        → Passes S.PIVOT (value_on trail.now.placed) (base_of family) name rows.old rows.new id }
    ensures same { IsSome result → rows.new ≡ rows.old }
    ensures came { NoneCame S.PIVOT rows.old rows.new }
    ensures first { length first.new ≡ length first.old }
    ensures second { length second.new ≡ length second.old }
{
    let lits = rows.lits(id);
    let len = lits.len();
    match choose_with::<S>(prefix, trail, lits, start_of(rows, id, len), free) {
        Choice::Pair(_, b, found) => {
            let found = hint_for(len, found);
            write(rows, keeper(id, found), HINT, found);
            watch_one::<S>(first, second, rows, family, id, watch_name(b));
            None
        }
        Choice::Held(_) => None,
        Choice::Open(lit) => Some(Event::Unit(id, lit)),
        Choice::Fails => Some(Event::Bad(id)),
    }
}

// Passes a row that watches a literal that is bad: it watches two others, or stays where another one is good, or it is
// unit or bad.
fn pass_anew<S: Side>(
    first: &mut Lists,
    second: &mut Lists,
    family: Family,
    id: RowId,
    name: usize,
    trail: &Trail,
    prefix: &Prefix,
    rows: &mut Rows,
) -> Option<Event>
    requires kept { AreKept S.PIVOT prefix.now (progress (literals_on trail.now.placed) [] 0 0)
        first.old second.old rows.old }
    requires both { length second.old ≡ length first.old }
    requires stands { owner S.PIVOT rows.old (base_of family) id ≡ Some name }
    requires bad { IsBadWatch S.PIVOT (value_on trail.now.placed) name }
    ensures goes { GoOn S.PIVOT prefix.now (literals_on trail.now.placed) first.old second.old rows.old
        first.new second.new rows.new }
    ensures kept { KeepsRows S.PIVOT rows.old rows.new }
    ensures event { IfSome result (IsEvent S.PIVOT prefix.now (value_on trail.now.placed) rows.new) }
    ensures passed { result ≡ None
        → Passes S.PIVOT (value_on trail.now.placed) (base_of family) name rows.old rows.new id }
    ensures same { IsSome result → rows.new ≡ rows.old }
    ensures came { NoneCame S.PIVOT rows.old rows.new }
    ensures first { length first.new ≡ length first.old }
    ensures second { length second.new ≡ length second.old }
{
    let lits = rows.lits(id);
    let len = lits.len();
    match choose::<S>(prefix, trail, lits, start_of(rows, id, len)) {
        Choice::Pair(a, b, found) => {
            let found = hint_for(len, found);
            write(rows, keeper(id, found), HINT, found);
            watch_both::<S>(first, second, rows, id, watch_name(a), watch_name(b));
            None
        }
        Choice::Held(_) => None,
        Choice::Open(lit) => Some(Event::Unit(id, lit)),
        Choice::Fails => Some(Event::Bad(id)),
    }
}

// Passes a row that watches a literal that is bad.
fn pass<S: Side>(
    first: &mut Lists,
    second: &mut Lists,
    family: Family,
    id: RowId,
    name: usize,
    trail: &Trail,
    prefix: &Prefix,
    rows: &mut Rows,
) -> Option<Event>
    requires kept { AreKept S.PIVOT prefix.now (progress (literals_on trail.now.placed) [] 0 0)
        first.old second.old rows.old }
    requires both { length second.old ≡ length first.old }
    requires stands { owner S.PIVOT rows.old (base_of family) id ≡ Some name }
    requires bad { IsBadWatch S.PIVOT (value_on trail.now.placed) name }
    ensures goes { GoOn S.PIVOT prefix.now (literals_on trail.now.placed) first.old second.old rows.old
        first.new second.new rows.new }
    ensures kept { KeepsRows S.PIVOT rows.old rows.new }
    ensures event { IfSome result (IsEvent S.PIVOT prefix.now (value_on trail.now.placed) rows.new) }
    ensures passed { result ≡ None
        → Passes S.PIVOT (value_on trail.now.placed) (base_of family) name rows.old rows.new id }
    ensures same { IsSome result → rows.new ≡ rows.old }
    ensures came { NoneCame S.PIVOT rows.old rows.new }
    ensures first { length first.new ≡ length first.old }
    ensures second { length second.new ≡ length second.old }
{
    let aside = rows.link(id, family.other().base());
    if is_good_watch::<S>(aside, trail) {
        return None;
    }
    if let Some(free) = free_other::<S>(prefix, trail, aside) {
        return pass_free::<S>(first, second, family, id, name, free, trail, prefix, rows);
    }
    pass_anew::<S>(first, second, family, id, name, trail, prefix, rows)
}

// Walks a list of a family, whose rows watch a bad literal, from a row on, up to a row that is unit or bad.
fn walk_list<S: Side>(
    first: &mut Lists,
    second: &mut Lists,
    family: Family,
    name: usize,
    at: &mut Option<RowId>,
    trail: &Trail,
    prefix: &Prefix,
    rows: &mut Rows,
) -> Option<Event>
    requires kept { AreKept S.PIVOT prefix.now (progress (literals_on trail.now.placed) [] 0 0)
        first.old second.old rows.old }
    requires both { length second.old ≡ length first.old }
    requires bad { IsBadWatch S.PIVOT (value_on trail.now.placed) name }
    requires sifting { IsSifting S.PIVOT (value_on trail.now.placed) (base_of family) name at.old rows.old }
    ensures goes { GoOn S.PIVOT prefix.now (literals_on trail.now.placed) first.old second.old rows.old
        first.new second.new rows.new }
    ensures kept { KeepsRows S.PIVOT rows.old rows.new }
    ensures event { IfSome result (IsEvent S.PIVOT prefix.now (value_on trail.now.placed) rows.new) }
    ensures sifting { IsSifting S.PIVOT (value_on trail.now.placed) (base_of family) name at.new rows.new }
    ensures ended { result ≡ None → at.new ≡ None }
    ensures came { NoneCame S.PIVOT rows.old rows.new }
    ensures first { length first.new ≡ length first.old }
    ensures second { length second.new ≡ length second.old }
{
    let own = family.base();
    while let Some(id) = *at {
        let next = rows.link(id, own + NEXT);
        if let Some(event) = pass::<S>(first, second, family, id, name, trail, prefix, rows) {
            return Some(event);
        }
        *at = next;
    }
    None
}

// The row from which a list of a family is walked: the one that was reached, or the first one.
#[inline(always)]
fn begin(
    first: &Lists,
    second: &Lists,
    family: Family,
    name: usize,
    at: Option<RowId>,
) -> Option<RowId>
    requires { name < length (lists_of family first.now second.now) }
    ensures reached { IsSome at → result ≡ at }
    ensures none { at ≡ None → result ≡ first_of (lists_of family first.now second.now) name }
{
    match at {
        Some(id) => Some(id),
        None => front(first, second, family, name),
    }
}

// Walks the list that comes next, up to a row that is unit or bad.
fn walk_next<S: Side>(
    first: &mut Lists,
    second: &mut Lists,
    ones: &mut usize,
    twos: &mut usize,
    at: &mut Option<RowId>,
    trail: &Trail,
    prefix: &Prefix,
    rows: &mut Rows,
) -> Option<Event>
    requires kept { AreKept S.PIVOT prefix.now (progress (literals_on trail.now.placed) [] ones.old twos.old)
        first.old second.old rows.old }
    requires walking { IsSome at.old → IsWalking S.PIVOT (literals_on trail.now.placed) ones.old twos.old at.old
        rows.old }
    requires both { length second.old ≡ length first.old }
    requires lists { All (HasLists (length first.old)) (literals_on trail.now.placed) }
    requires more { min ones.old twos.old < length trail.now.placed }
    requires fits { length trail.now.placed < 2 ^ 64 }
    ensures kept { (calm : List ℕ) → AreKept S.PIVOT prefix.now (progress (literals_on trail.now.placed) calm
        ones.old twos.old)
        first.old second.old rows.old
        → AreKept S.PIVOT prefix.now (progress (literals_on trail.now.placed) calm ones.new twos.new)
        first.new second.new rows.new }
    ensures walking { IsSome at.new → IsWalking S.PIVOT (literals_on trail.now.placed) ones.new twos.new at.new
        rows.new }
    ensures more { result ≡ None → ones.new + twos.new ≡ ones.old + twos.old + 1 }
    ensures rows { KeepsRows S.PIVOT rows.old rows.new }
    ensures event { IfSome result (IsEvent S.PIVOT prefix.now (value_on trail.now.placed) rows.new) }
    ensures came { NoneCame S.PIVOT rows.old rows.new }
    ensures first { length first.new ≡ length first.old }
    ensures second { length second.new ≡ length second.old }
{
    let family = Family::turn(*ones, *twos);
    let name = watch_name(bad_by::<S>(trail.at((*ones).min(*twos))));
    *at = begin(first, second, family, name, *at);
    if let Some(event) = walk_list::<S>(first, second, family, name, at, trail, prefix, rows) {
        return Some(event);
    }
    match family {
        Family::First => {
            *ones += 1;
            None
        }
        Family::Second => {
            *twos += 1;
            None
        }
    }
}

// Walks the lists of all literals that became bad, up to a row that is unit or bad.
pub(crate) fn walk<S: Side>(
    first: &mut Lists,
    second: &mut Lists,
    calm: &mut Vec<usize>,
    ones: &mut usize,
    twos: &mut usize,
    at: &mut Option<RowId>,
    trail: &Trail,
    prefix: &Prefix,
    rows: &mut Rows,
) -> Event
    requires held { AreHeld S.PIVOT prefix.now (progress (literals_on trail.now.placed) calm.old.items ones.old
        twos.old)
        at.old first.old second.old rows.old }
    requires waits { NoneWaits S.PIVOT rows.old }
    requires both { length second.old ≡ length first.old }
    requires lists { All (HasLists (length first.old)) (literals_on trail.now.placed) }
    requires calm { length calm.old.items ≡ length (literals_on trail.now.placed) }
    ensures held { AreHeld S.PIVOT prefix.now (progress (literals_on trail.now.placed) calm.new.items ones.new twos.new)
        at.new first.new second.new rows.new }
    ensures event { IsEvent S.PIVOT prefix.now (value_on trail.now.placed) rows.new result }
    ensures kept { KeepsRows S.PIVOT rows.old rows.new }
    ensures same { length calm.new.items ≡ length calm.old.items }
    ensures capacity { vec_capacity calm.new ≡ vec_capacity calm.old }
    ensures first { length first.new ≡ length first.old }
    ensures second { length second.new ≡ length second.old }
{
    while (*ones).min(*twos) < trail.len() {
        if let Some(event) = walk_next::<S>(first, second, ones, twos, at, trail, prefix, rows) {
            return event;
        }
    }
    note_calm(calm);
    Event::Quiet
}
