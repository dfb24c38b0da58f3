//! Commands, answered by their codes.
ghost use Rattle.std.specs.Prelude.{◌≡◌, ◌≢◌, ◌≤◌};
ghost use Rattle.frames.specs.Commands.{Activate, AddClause, AddScope, AddVariable, Assume, CloseGroup, Deactivate, OpenGroup, Pop, Push, refusal_of};
ghost use Rattle.frames.specs.Fold.{returning};
ghost use Rattle.engine.specs.Counting.{with_clause, with_clauses};
ghost use Rattle.engine.specs.Keeping.{MayBeKept};
ghost use Rattle.engine.specs.State.{changed};
ghost use Rattle.qbf_c.specs.Codes.{Did, DidInPlace, accepted, bad_kept, no_memory, place_for, quantifier_for};

use crate::code::{ACCEPTED, BAD_KEPT, told};
use engine::Engine;
use prefix::Quant;

pub(crate) fn scope(engine: &mut Engine, forall: bool, at: u64) -> u32
    ensures { Did (refusal_of engine.old.formula (AddScope (quantifier_for forall) (place_for at)))
        (engine.new ≡ changed engine.old (AddScope (quantifier_for forall) (place_for at)))
        (engine.new ≡ engine.old) result }
{
    let quant = if forall { Quant::Forall } else { Quant::Exists };
    let place = if at == 0 { None } else { Some(at) };
    told(engine.scope(quant, place))
}

pub(crate) fn var(engine: &mut Engine, var: u64, scope: u64) -> u32
    ensures { Did (refusal_of engine.old.formula (AddVariable var scope))
        (engine.new ≡ changed engine.old (AddVariable var scope)) (engine.new ≡ engine.old) result }
{
    told(engine.var(var, scope))
}

pub(crate) fn clause(engine: &mut Engine, lits: &[i64]) -> u32
    ensures did { Did (refusal_of engine.old.formula (AddClause lits.now))
        (engine.new ≡ record (changed engine.old (AddClause lits.now)) {
          counts = with_clause engine.old.counts;
          kept_long = engine.new.kept_long;
        }) (engine.new ≡ record engine.old { kept_long = engine.new.kept_long }) result }
    ensures stays { result ≢ accepted → result ≢ no_memory → engine.new ≡ engine.old }
    ensures fewer { result ≢ accepted → engine.new.kept_long ≤ engine.old.kept_long }
{
    told(engine.clause(lits))
}

pub(crate) fn push(engine: &mut Engine) -> u32
    ensures { Did (refusal_of engine.old.formula Push) (engine.new ≡ changed engine.old Push)
        (engine.new ≡ engine.old) result }
{
    told(engine.push())
}

pub(crate) fn pop(engine: &mut Engine) -> u32
    ensures { DidInPlace (refusal_of engine.old.formula Pop)
        (engine.new ≡ record (changed engine.old Pop) { kept_long = engine.new.kept_long })
        (engine.new ≡ engine.old) result }
{
    told(engine.pop())
}

pub(crate) fn assume(engine: &mut Engine, lit: i64) -> u32
    ensures { Did (refusal_of engine.old.formula (Assume lit)) (engine.new ≡ changed engine.old (Assume lit))
        (engine.new ≡ engine.old) result }
{
    told(engine.assume(lit))
}

pub(crate) fn open_group(engine: &mut Engine, group: u64) -> u32
    ensures { Did (refusal_of engine.old.formula (OpenGroup group)) (engine.new ≡ changed engine.old (OpenGroup group))
        (engine.new ≡ engine.old) result }
{
    told(engine.open_group(group))
}

pub(crate) fn close_group(engine: &mut Engine) -> u32
    ensures { DidInPlace (refusal_of engine.old.formula CloseGroup) (engine.new ≡ changed engine.old CloseGroup)
        (engine.new ≡ engine.old) result }
{
    told(engine.close_group())
}

pub(crate) fn activate(engine: &mut Engine, group: u64) -> u32
    ensures did { Did (refusal_of engine.old.formula (Activate group))
        (engine.new ≡ record (changed engine.old (Activate group)) {
          counts = with_clauses (returning engine.old.formula group) engine.old.counts;
          kept_long = engine.new.kept_long;
        }) (engine.new ≡ record engine.old { kept_long = engine.new.kept_long }) result }
    ensures stays { result ≢ accepted → result ≢ no_memory → engine.new ≡ engine.old }
    ensures fewer { result ≢ accepted → engine.new.kept_long ≤ engine.old.kept_long }
{
    told(engine.activate(group))
}

pub(crate) fn deactivate(engine: &mut Engine, group: u64) -> u32
    ensures { DidInPlace (refusal_of engine.old.formula (Deactivate group))
        (engine.new ≡ record (changed engine.old (Deactivate group)) { kept_long = engine.new.kept_long })
        (engine.new ≡ engine.old) result }
{
    told(engine.deactivate(group))
}

pub(crate) fn set_kept_rows(engine: &mut Engine, rows: u32) -> u32
    ensures set { MayBeKept rows → (result ≡ accepted) × (engine.new ≡ record engine.old { kept_rows = rows }) }
    ensures refused { ¬ MayBeKept rows → (result ≡ bad_kept) × (engine.new ≡ engine.old) }
{
    if !(16..=16_777_216).contains(&rows) {
        return BAD_KEPT;
    }
    engine.set_kept_rows(rows);
    ACCEPTED
}
