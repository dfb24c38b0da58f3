//! Propagation: what unit rows ask for is assigned, with the rows at hand, up to a bad row.
ghost use Rattle.std.specs.Prelude.{◌≡◌, ◌≢◌, ◌+◌, ◌-◌, ◌<◌, ◌≤◌, ℕ, Err, IfOk, List, None, OnErr, OnOk, Contains};
ghost use Rattle.prefix.specs.Scopes.{all_variables};
ghost use Rattle.steps.specs.Counter.{after};
ghost use Rattle.calculus.specs.Limits.{propagation_limit};
ghost use Rattle.calculus.specs.Rows.{Row};
ghost use Rattle.calculus.specs.Search.{good_literal, value_on};
ghost use Rattle.calculus.specs.Search.Cause.{Propagated as propagated};
ghost use Rattle.trail.specs.State.{IsTrailFor, with_literal};
ghost use Rattle.trail.specs.declared.allowed.Allowed.TheVariants.{Anything, Nothing};
ghost use Rattle.watch.specs.Events.{IsEvent};
ghost use Rattle.search.specs.State.{IsSearching, SearchState};
ghost use Rattle.search.specs.Counting.{size_of};
ghost use Rattle.search.specs.Forcing.{IsRefuting};
ghost use Rattle.search.specs.Moves.{IsFound, IsFoundBad, Propagates, WasDue};
ghost use Rattle.search.specs.Watching.{KeepsRows, Looks, holding};

use crate::outcome::{BadRow, Found};
use crate::search::Search;
use crate::watching::Watches;
use prefix::{Lit, Prefix, Quant};
use rows::{RowId, Rows};
use steps::{Spent, Steps};
use trail::{Trail, Why};
use watch::Event;

impl Search {
    // Assigns what unit rows ask for, until a row is bad, which it answers, or none is unit.
    pub(crate) fn propagate_all(
        &mut self,
        prefix: &Prefix,
        steps: &mut Steps,
    ) -> Result<Option<BadRow>, Spent>
        requires searching { IsSearching prefix.now self.old }
        requires allowed { self.old.trail.allowed ≡ Anything }
        ensures goes { Propagates prefix.now self.old self.new steps.old steps.new }
        ensures found { IfOk result (IsFoundBad prefix.now self.new) }
        ensures due { OnErr result (WasDue prefix.now self.old self.new) }
        ensures spent { OnErr result (steps.new.spent ≡ steps.new.budget) }
        ensures few { OnErr result ((matrix : List Row) (start : ℕ) →
            IsRefuting prefix.now matrix start self.old steps.old →
            steps.new.budget - start < propagation_limit (size_of prefix.now)) }
    {
        let mut rows = self.derivation.take_rows();
        let found = propagate_in(&mut self.watches, &mut self.trail, prefix, &mut rows, steps);
        self.derivation.put_rows(rows);
        found
    }
}

// `propagate_all` with the rows at hand.
fn propagate_in(
    watches: &mut Watches,
    trail: &mut Trail,
    prefix: &Prefix,
    rows: &mut Rows,
    steps: &mut Steps,
) -> Result<Option<BadRow>, Spent>
    requires searching { (s : SearchState) × IsSearching prefix.now (holding s watches.old trail.old rows.old) }
    requires allowed { trail.old.allowed ≡ Anything }
    ensures goes { (s : SearchState) → IsSearching prefix.now (holding s watches.old trail.old rows.old) →
        Propagates prefix.now (holding s watches.old trail.old rows.old) (holding s watches.new trail.new rows.new)
        steps.old steps.new }
    ensures same { KeepsRows rows.old rows.new }
    ensures found { IfOk result (λ bad. (s : SearchState) →
        IsFoundBad prefix.now (holding s watches.new trail.new rows.new) bad) }
    ensures due { OnErr result ((s : SearchState) →
        IsSearching prefix.now (holding s watches.old trail.old rows.old) →
        WasDue prefix.now (holding s watches.old trail.old rows.old)
        (holding s watches.new trail.new rows.new)) }
    ensures spent { OnErr result (steps.new.spent ≡ steps.new.budget) }
    ensures few { OnErr result ((s : SearchState) (matrix : List Row) (start : ℕ) →
        IsSearching prefix.now (holding s watches.old trail.old rows.old) →
        IsRefuting prefix.now matrix start (holding s watches.old trail.old rows.old) steps.old →
        steps.new.budget - start < propagation_limit (size_of prefix.now)) }
{
    'units: loop {
        match look(watches, trail, prefix, rows) {
            Found::Unit(side, row, lit) => propagate(trail, prefix, side, row, lit, steps)?,
            Found::Bad(side, row) => return Ok(Some(BadRow { side, row })),
            Found::Quiet => return Ok(None),
        }
    }
}

// What the watches find, that of clauses first.
#[inline(always)]
fn look(watches: &mut Watches, trail: &Trail, prefix: &Prefix, rows: &mut Rows) -> Found
    requires searching { (s : SearchState) × IsSearching prefix.now (holding s watches.old trail.now rows.old) }
    ensures looks { (s : SearchState) → IsSearching prefix.now (holding s watches.old trail.now rows.old) →
        Looks prefix.now (holding s watches.old trail.now rows.old) (holding s watches.new trail.now rows.new) }
    ensures same { KeepsRows rows.old rows.new }
    ensures found { (s : SearchState) → IsFound prefix.now (holding s watches.new trail.now rows.new) result }
{
    match look_at(watches, Quant::Exists, trail, prefix, rows) {
        Event::Unit(id, lit) => Found::Unit(Quant::Exists, id, lit),
        Event::Bad(id) => Found::Bad(Quant::Exists, id),
        Event::Quiet => match look_at(watches, Quant::Forall, trail, prefix, rows) {
            Event::Unit(id, lit) => Found::Unit(Quant::Forall, id, lit),
            Event::Bad(id) => Found::Bad(Quant::Forall, id),
            Event::Quiet => Found::Quiet,
        },
    }
}

// What the watch of a side finds.
#[inline(always)]
fn look_at(
    watches: &mut Watches,
    side: Quant,
    trail: &Trail,
    prefix: &Prefix,
    rows: &mut Rows,
) -> Event
    requires searching { (s : SearchState) × IsSearching prefix.now (holding s watches.old trail.now rows.old) }
    ensures looks { (s : SearchState) → IsSearching prefix.now (holding s watches.old trail.now rows.old) →
        Looks prefix.now (holding s watches.old trail.now rows.old) (holding s watches.new trail.now rows.new) }
    ensures same { KeepsRows rows.old rows.new }
    ensures event { IsEvent side prefix.now (value_on trail.now.placed) rows.new result }
{
    watches.next(side, rows, trail, prefix)
}

// Assigns the literal that a unit row of a side asks for; the row is its reason.
#[inline(always)]
pub(crate) fn propagate(
    trail: &mut Trail,
    prefix: &Prefix,
    side: Quant,
    row: RowId,
    lit: Lit,
    steps: &mut Steps,
) -> Result<(), Spent>
    requires trail { IsTrailFor prefix.now trail.old }
    requires known { Contains (all_variables prefix.now) lit.variable }
    requires unassigned { value_on trail.old.placed lit.variable ≡ None }
    requires room { lit.variable ≤ trail.old.room }
    requires allowed { trail.old.allowed ≢ Nothing }
    ensures ok { OnOk result (trail.new ≡ with_literal prefix.now trail.old (good_literal side lit) (propagated row)) }
    ensures kept { IsTrailFor prefix.now trail.new }
    ensures one { OnOk result (trail.old.assigned ≤ steps.old.spent → trail.new.assigned ≡ trail.old.assigned + 1) }
    ensures left { OnOk result (steps.old.spent ≢ steps.old.budget) }
    ensures within { steps.old.spent ≤ steps.old.budget }
    ensures counted { OnOk result (steps.new ≡ after steps.old 1) }
    ensures same { OnErr result (trail.new ≡ trail.old) }
    ensures uncounted { OnErr result (steps.new ≡ steps.old) }
    ensures spent { OnErr result (steps.new.spent ≡ steps.new.budget) }
{
    trail.assign(prefix, good(side, lit), Why::Propagated(row), steps)
}

// The literal that a unit row of a side makes good: its own for a clause, its opposite for a cube.
fn good(side: Quant, lit: Lit) -> Lit
    ensures { result ≡ good_literal side lit }
{
    match side {
        Quant::Exists => lit,
        Quant::Forall => lit.negate(),
    }
}
