//! Clauses in frames and groups.
ghost use Rattle.std.specs.Prelude.{◌≡◌, ◌≢◌, ◌≤◌, true, false};
ghost use Rattle.frames.specs.Commands.{Activate, AddClause, CloseGroup, Deactivate, OpenGroup, Pop, Push, refusal_of};
ghost use Rattle.frames.specs.Fold.{returning};
ghost use Rattle.frames.specs.State.{depth as depth_of};
ghost use Rattle.engine.specs.Counting.{with_clause, with_clauses};
ghost use Rattle.engine.specs.State.{changed};
ghost use Rattle.qbf_c.specs.Codes.{Did, DidInPlace, accepted, no_engine, no_memory};

use crate::code::{ACCEPTED, NO_ENGINE};
use crate::commands;
use crate::handle::{Handle, taken};
use std::alloc::Global;

/// Puts a clause into the open group, or else into the top frame. With no memory rows may be detached.
#[unsafe(no_mangle)]
pub extern "C" fn qbf_clause(alloc: Global, qbf: &mut Handle, lits: &[i64]) -> u32
    ensures live { qbf.new.live ≡ qbf.old.live }
    ensures none { qbf.old.live ≡ false → result ≡ no_engine }
    ensures did { qbf.old.live ≡ true → Did (refusal_of qbf.old.engine.formula (AddClause lits.now))
        (qbf.new.engine ≡ record (changed qbf.old.engine (AddClause lits.now)) {
          counts = with_clause qbf.old.engine.counts;
          kept_long = qbf.new.engine.kept_long;
        })
        (qbf.new.engine ≡ record qbf.old.engine { kept_long = qbf.new.engine.kept_long }) result }
    ensures stays { qbf.old.live ≡ true → result ≢ accepted → result ≢ no_memory → qbf.new.engine ≡ qbf.old.engine }
    ensures fewer { qbf.old.live ≡ true → result ≢ accepted →
        qbf.new.engine.kept_long ≤ qbf.old.engine.kept_long }
{
    let Some(mut engine) = taken(alloc, qbf) else {
        return NO_ENGINE;
    };
    let code = commands::clause(&mut engine, lits);
    *qbf = Handle::of(engine);
    code
}

/// Opens a frame.
#[unsafe(no_mangle)]
pub extern "C" fn qbf_push(alloc: Global, qbf: &mut Handle) -> u32
    ensures live { qbf.new.live ≡ qbf.old.live }
    ensures none { qbf.old.live ≡ false → result ≡ no_engine }
    ensures did { qbf.old.live ≡ true → Did (refusal_of qbf.old.engine.formula Push)
        (qbf.new.engine ≡ changed qbf.old.engine Push)
        (qbf.new.engine ≡ qbf.old.engine) result }
{
    let Some(mut engine) = taken(alloc, qbf) else {
        return NO_ENGINE;
    };
    let code = commands::push(&mut engine);
    *qbf = Handle::of(engine);
    code
}

/// Drops the top frame. It takes no memory.
#[unsafe(no_mangle)]
pub extern "C" fn qbf_pop(alloc: Global, qbf: &mut Handle) -> u32
    ensures live { qbf.new.live ≡ qbf.old.live }
    ensures none { qbf.old.live ≡ false → result ≡ no_engine }
    ensures did { qbf.old.live ≡ true → DidInPlace (refusal_of qbf.old.engine.formula Pop)
        (qbf.new.engine ≡ record (changed qbf.old.engine Pop) { kept_long = qbf.new.engine.kept_long })
        (qbf.new.engine ≡ qbf.old.engine) result }
{
    let Some(mut engine) = taken(alloc, qbf) else {
        return NO_ENGINE;
    };
    let code = commands::pop(&mut engine);
    *qbf = Handle::of(engine);
    code
}

/// How many pushed frames are open.
#[unsafe(no_mangle)]
pub extern "C" fn qbf_depth(alloc: Global, qbf: &mut Handle, depth: &mut u64) -> u32
    ensures live { qbf.new.live ≡ qbf.old.live }
    ensures none { qbf.old.live ≡ false → (result ≡ no_engine) × (depth.new ≡ depth.old) }
    ensures same { qbf.old.live ≡ true → qbf.new.engine ≡ qbf.old.engine }
    ensures told { qbf.old.live ≡ true → (result ≡ accepted)
        × (depth.new ≡ depth_of qbf.old.engine.formula.frames) }
{
    let Some(engine) = taken(alloc, qbf) else {
        return NO_ENGINE;
    };
    *depth = engine.depth() as u64;
    *qbf = Handle::of(engine);
    ACCEPTED
}

/// Opens a group, which is made where it is new.
#[unsafe(no_mangle)]
pub extern "C" fn qbf_open_group(alloc: Global, qbf: &mut Handle, group: u64) -> u32
    ensures live { qbf.new.live ≡ qbf.old.live }
    ensures none { qbf.old.live ≡ false → result ≡ no_engine }
    ensures did { qbf.old.live ≡ true → Did (refusal_of qbf.old.engine.formula (OpenGroup group))
        (qbf.new.engine ≡ changed qbf.old.engine (OpenGroup group))
        (qbf.new.engine ≡ qbf.old.engine) result }
{
    let Some(mut engine) = taken(alloc, qbf) else {
        return NO_ENGINE;
    };
    let code = commands::open_group(&mut engine, group);
    *qbf = Handle::of(engine);
    code
}

/// Closes the open group. It takes no memory.
#[unsafe(no_mangle)]
pub extern "C" fn qbf_close_group(alloc: Global, qbf: &mut Handle) -> u32
    ensures live { qbf.new.live ≡ qbf.old.live }
    ensures none { qbf.old.live ≡ false → result ≡ no_engine }
    ensures did { qbf.old.live ≡ true → DidInPlace (refusal_of qbf.old.engine.formula CloseGroup)
        (qbf.new.engine ≡ changed qbf.old.engine CloseGroup)
        (qbf.new.engine ≡ qbf.old.engine) result }
{
    let Some(mut engine) = taken(alloc, qbf) else {
        return NO_ENGINE;
    };
    let code = commands::close_group(&mut engine);
    *qbf = Handle::of(engine);
    code
}

/// Makes a group active. With no memory rows may be detached.
#[unsafe(no_mangle)]
pub extern "C" fn qbf_activate(alloc: Global, qbf: &mut Handle, group: u64) -> u32
    ensures live { qbf.new.live ≡ qbf.old.live }
    ensures none { qbf.old.live ≡ false → result ≡ no_engine }
    ensures did { qbf.old.live ≡ true → Did (refusal_of qbf.old.engine.formula (Activate group))
        (qbf.new.engine ≡ record (changed qbf.old.engine (Activate group)) {
          counts = with_clauses (returning qbf.old.engine.formula group) qbf.old.engine.counts;
          kept_long = qbf.new.engine.kept_long;
        })
        (qbf.new.engine ≡ record qbf.old.engine { kept_long = qbf.new.engine.kept_long }) result }
    ensures stays { qbf.old.live ≡ true → result ≢ accepted → result ≢ no_memory → qbf.new.engine ≡ qbf.old.engine }
    ensures fewer { qbf.old.live ≡ true → result ≢ accepted →
        qbf.new.engine.kept_long ≤ qbf.old.engine.kept_long }
{
    let Some(mut engine) = taken(alloc, qbf) else {
        return NO_ENGINE;
    };
    let code = commands::activate(&mut engine, group);
    *qbf = Handle::of(engine);
    code
}

/// Makes a group inactive. It takes no memory.
#[unsafe(no_mangle)]
pub extern "C" fn qbf_deactivate(alloc: Global, qbf: &mut Handle, group: u64) -> u32
    ensures live { qbf.new.live ≡ qbf.old.live }
    ensures none { qbf.old.live ≡ false → result ≡ no_engine }
    ensures did { qbf.old.live ≡ true → DidInPlace (refusal_of qbf.old.engine.formula (Deactivate group))
        (qbf.new.engine
        ≡ record (changed qbf.old.engine (Deactivate group)) { kept_long = qbf.new.engine.kept_long })
        (qbf.new.engine ≡ qbf.old.engine) result }
{
    let Some(mut engine) = taken(alloc, qbf) else {
        return NO_ENGINE;
    };
    let code = commands::deactivate(&mut engine, group);
    *qbf = Handle::of(engine);
    code
}
