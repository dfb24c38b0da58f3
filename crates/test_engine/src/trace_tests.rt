//! Tests of `step_core` and `qrp_trace`.
use derive::StepId;
use fixtures::{Workshop, literal, prefix_of};
use ports::{Failed, MemorySink};
use prefix::{Prefix, Quant};
use qrp_trace::write_trace;
use std::alloc::Global;
use std::test::Fail;
use step_core::{Core, core};

const REFUTATION: &str =
    "p qrp 2 5\ne 2 0\na 1 0\n1 1 2 0 0\n2 -1 -2 0 0\n3 2 0 1 0\n4 -2 0 2 0\n5 0 3 4 0\nr UNSAT\n";

const CONFIRMATION: &str = "p qrp 2 2\ne 2 0\na 1 0\n1 2 0 0\n2 0 1 0\nr SAT\n";

// Whether a core is written as this text.
fn is_text(core: &Core, prefix: &Prefix, sink: &mut MemorySink, want: &str) -> Result<bool, Fail> {
    write_trace(core, prefix, sink)?;
    Ok(sink.bytes() == want.as_bytes())
}

fn has_text(alloc: Global, core: &Core, prefix: &Prefix, want: &str) -> Result<bool, Fail> {
    let mut sink = MemorySink::new(alloc, 200, 7, Vec::new(alloc))?;
    is_text(core, prefix, &mut sink, want)
}

// Whether a core's winner is this one, and the other side loses.
fn is_won_by(core: &Core, winner: Quant) -> bool {
    core.winner() == winner && core.loser() == winner.other()
}

// Whether a fault of the sink leaves so many bytes of the front of the refutation.
fn leaves(core: &Core, prefix: &Prefix, sink: &mut MemorySink, written: usize) -> bool {
    if write_trace(core, prefix, sink) != Err(Failed) {
        return false;
    }
    REFUTATION.as_bytes().starts_with(sink.bytes()) && sink.bytes().len() == written
}

// The room of a sink, the call of it that fails, and how much of the text is written then.
type Fault = (usize, u64, usize);

fn is_fault(alloc: Global, core: &Core, prefix: &Prefix, fault: Fault) -> Result<bool, Fail> {
    let (room, failing, written) = fault;
    let failing = vec![in alloc; failing]?;
    let mut sink = MemorySink::new(alloc, room, 64, failing)?;
    Ok(leaves(core, prefix, &mut sink, written))
}

fn are_faults(alloc: Global, core: &Core, prefix: &Prefix, faults: &[Fault]) -> Result<bool, Fail> {
    for fault in faults {
        if !is_fault(alloc, core, prefix, *fault)? {
            return Ok(false);
        }
    }
    Ok(true)
}

// What a test looks for.
#[derive(Clone, Copy)]
enum Look {
    // The text of the refutation, which the universal side wins.
    Refutation,
    // The text of the confirmation, which the existential side wins.
    Confirmation,
    // What faults leave of the refutation.
    Faults,
}

fn is_so(alloc: Global, core: &Core, prefix: &Prefix, look: Look) -> Result<bool, Fail> {
    match look {
        Look::Refutation => {
            Ok(has_text(alloc, core, prefix, REFUTATION)? && is_won_by(core, Quant::Forall))
        }
        Look::Confirmation => {
            Ok(has_text(alloc, core, prefix, CONFIRMATION)? && is_won_by(core, Quant::Exists))
        }
        Look::Faults => {
            let faults = [(200, 1, 0), (200, 2, 64), (20, 99, 20)];
            are_faults(alloc, core, prefix, &faults)
        }
    }
}

// The core of a live step.
fn core_of(alloc: Global, shop: &Workshop, end: StepId) -> Result<Core, Fail> {
    let derivation = shop.derivation();
    if !derivation.is_live(end) {
        return Err("not live")?;
    }
    Ok(core(alloc, derivation, end)?)
}

// Whether it is so of that core.
fn is_so_of(alloc: Global, shop: &Workshop, end: StepId, look: Look) -> Result<bool, Fail> {
    let core = core_of(alloc, shop, end)?;
    is_so(alloc, &core, shop.prefix(), look)
}

// A clause of two literals, with its reduction.
fn put_clause(shop: &mut Workshop, first: i32, second: i32) -> Result<(), Fail> {
    let lits = [literal(first)?, literal(second)?];
    shop.clause(&lits, 0)?;
    Ok(())
}

// The clauses 1 2 and -1 -2 with their reductions, and the empty resolvent of these.
fn refute(shop: &mut Workshop) -> Result<StepId, Fail> {
    put_clause(shop, 1, 2)?;
    put_clause(shop, -1, -2)?;
    shop.resolve(1, 3, 2)
}

// An initial cube, and its finish.
fn confirm(shop: &mut Workshop) -> Result<StepId, Fail> {
    let cube = shop.cube(&[literal(2)?])?;
    shop.finish(cube, &[])
}

// The last step of what a test looks at.
fn end_of(shop: &mut Workshop, look: Look) -> Result<StepId, Fail> {
    match look {
        Look::Confirmation => confirm(shop),
        _ => refute(shop),
    }
}

fn is_shown(alloc: Global, shop: &mut Workshop, look: Look) -> Result<bool, Fail> {
    let end = end_of(shop, look)?;
    is_so_of(alloc, shop, end, look)
}

// The same of a new derivation, over variable 2 under exists, then 1 under forall.
fn holds(alloc: Global, look: Look) -> Result<bool, Fail> {
    let prefix = prefix_of(alloc, &[Quant::Exists, Quant::Forall], &[2, 1])?;
    let mut shop = Workshop::new(alloc, prefix);
    is_shown(alloc, &mut shop, look)
}

#[test]
fn a_false_formula_has_this_trace(rt: HostRuntime) -> Result<(), Fail> {
    assert!(rt; holds(rt.alloc(), Look::Refutation)?);
    Ok(())
}

#[test]
fn a_true_formula_has_this_trace(rt: HostRuntime) -> Result<(), Fail> {
    assert!(rt; holds(rt.alloc(), Look::Confirmation)?);
    Ok(())
}

// The call of the sink that fails, or its want of room, and how much of the text is written then.
#[test]
fn a_fault_leaves_a_front(rt: HostRuntime) -> Result<(), Fail> {
    assert!(rt; holds(rt.alloc(), Look::Faults)?);
    Ok(())
}
