//! What the last verdict is asked.
ghost use Rattle.std.specs.Prelude.{◌≡◌, ◌≢◌, Bool, true, false, Some, IfSome, MatchOption};
ghost use Rattle.prefix.specs.Literal.{signed_number};
ghost use Rattle.truth.specs.Truth.{assumed_value};
ghost use Rattle.engine.specs.Asks.{Decides, IsVerdictOf, PlaysFirst, first_values, values_of};
ghost use Rattle.engine.specs.Refusals.{value_refusal};
ghost use Rattle.qbf_c.specs.Buffers.{AreLeftOut, Fills, FillsInPlace};
ghost use Rattle.qbf_c.specs.Codes.{accepted, ask_code, ask_refusal_code, no_engine, verdict_code};
ghost use Rattle.qbf_c.specs.Told.{AreRelevant, CoreSays, IsCircuitText, IsTraceText};

use crate::code::NO_ENGINE;
use crate::handle::{Handle, taken};
use crate::texts::Form;
use crate::{asks, texts};
use std::alloc::Global;

/// The last verdict, 10 or 20, where no change came after it.
#[unsafe(no_mangle)]
pub extern "C" fn qbf_verdict(alloc: Global, qbf: &mut Handle) -> u32
    ensures live { qbf.new.live ≡ qbf.old.live }
    ensures none { qbf.old.live ≡ false → result ≡ no_engine }
    ensures same { qbf.old.live ≡ true → qbf.new.engine ≡ qbf.old.engine }
    ensures told { qbf.old.live ≡ true → result ≡ verdict_code qbf.old.engine.verdict }
    ensures facts { qbf.old.live ≡ true → IfSome qbf.old.engine.verdict (IsVerdictOf qbf.old.engine.formula) }
    ensures first { qbf.old.live ≡ true → IfSome qbf.old.engine.verdict (PlaysFirst qbf.old.engine.formula) }
{
    let Some(engine) = taken(alloc, qbf) else {
        return NO_ENGINE;
    };
    let code = asks::verdict(&engine);
    *qbf = Handle::of(engine);
    code
}

/// The literal of a variable of the first scope that the last verdict's proof plays.
#[unsafe(no_mangle)]
pub extern "C" fn qbf_value(alloc: Global, qbf: &mut Handle, var: u64, lit: &mut i32) -> u32
    ensures live { qbf.new.live ≡ qbf.old.live }
    ensures none { qbf.old.live ≡ false → (result ≡ no_engine) × (lit.new ≡ lit.old) }
    ensures same { qbf.old.live ≡ true → qbf.new.engine ≡ qbf.old.engine }
    ensures refused { qbf.old.live ≡ true → MatchOption (value_refusal qbf.old.engine var) (result ≡ accepted)
        (λ e. result ≡ ask_code e) }
    ensures value { qbf.old.live ≡ true → result ≡ accepted → IfSome qbf.old.engine.verdict (λ v. lit.new
        ≡ signed_number (record { variable = var; positive = values_of qbf.old.engine.formula v var })) }
    ensures assumed { qbf.old.live ≡ true → result ≡ accepted → IfSome qbf.old.engine.verdict
        (λ v. (b : Bool) → assumed_value v.assumptions var ≡ Some b
        → lit.new ≡ signed_number (record { variable = var; positive = b })) }
    ensures decides { qbf.old.live ≡ true → result ≡ accepted → IfSome qbf.old.engine.verdict
        (λ v. Decides qbf.old.engine.formula v (first_values qbf.old.engine.formula v)) }
    ensures facts { qbf.old.live ≡ true → IfSome qbf.old.engine.verdict (IsVerdictOf qbf.old.engine.formula) }
    ensures kept { result ≢ accepted → lit.new ≡ lit.old }
{
    let Some(engine) = taken(alloc, qbf) else {
        return NO_ENGINE;
    };
    let code = asks::value(&engine, var, lit);
    *qbf = Handle::of(engine);
    code
}

/// The assumptions of the last verdict that matter, as signed numbers into the buffer; `count` tells how many they are.
/// It takes no memory.
#[unsafe(no_mangle)]
pub extern "C" fn qbf_relevant(
    alloc: Global,
    qbf: &mut Handle,
    lits: &mut [i32],
    count: &mut usize,
) -> u32
    ensures live { qbf.new.live ≡ qbf.old.live }
    ensures none { qbf.old.live ≡ false → AreLeftOut lits.old lits.new count.old count.new result }
    ensures same { qbf.old.live ≡ true → qbf.new.engine ≡ qbf.old.engine }
    ensures says { qbf.old.live ≡ true → FillsInPlace (ask_refusal_code qbf.old.engine)
        (λ list. IfSome qbf.old.engine.verdict (λ v. AreRelevant qbf.old.engine.formula v list))
        lits.old lits.new count.old count.new result }
    ensures facts { qbf.old.live ≡ true → IfSome qbf.old.engine.verdict (IsVerdictOf qbf.old.engine.formula) }
{
    let Some(engine) = taken(alloc, qbf) else {
        return NO_ENGINE;
    };
    let code = asks::relevant(&engine, lits, count);
    *qbf = Handle::of(engine);
    code
}

/// The groups of a core of a false formula, into the buffer; `count` tells how many they are.
#[unsafe(no_mangle)]
pub extern "C" fn qbf_group_core(
    alloc: Global,
    qbf: &mut Handle,
    budget: u64,
    groups: &mut [u32],
    count: &mut usize,
) -> u32
    ensures live { qbf.new.live ≡ qbf.old.live }
    ensures none { qbf.old.live ≡ false → AreLeftOut groups.old groups.new count.old count.new result }
    ensures same { qbf.old.live ≡ true → qbf.new.engine ≡ qbf.old.engine }
    ensures says { qbf.old.live ≡ true → CoreSays budget qbf.old.engine groups.old groups.new
        count.old count.new result }
    ensures facts { qbf.old.live ≡ true → IfSome qbf.old.engine.verdict (IsVerdictOf qbf.old.engine.formula) }
{
    let Some(engine) = taken(alloc, qbf) else {
        return NO_ENGINE;
    };
    let code = asks::group_core(&engine, budget, groups, count);
    *qbf = Handle::of(engine);
    code
}

/// The circuit of the last verdict's proof as AIGER 1.9, into the buffer; `count` tells how many bytes it has.
#[unsafe(no_mangle)]
pub extern "C" fn qbf_certificate(
    alloc: Global,
    qbf: &mut Handle,
    binary: bool,
    trimmed: bool,
    bytes: &mut [u8],
    count: &mut usize,
) -> u32
    ensures live { qbf.new.live ≡ qbf.old.live }
    ensures none { qbf.old.live ≡ false → AreLeftOut bytes.old bytes.new count.old count.new result }
    ensures same { qbf.old.live ≡ true → qbf.new.engine ≡ qbf.old.engine }
    ensures says { qbf.old.live ≡ true → Fills (ask_refusal_code qbf.old.engine)
        (λ list. IfSome qbf.old.engine.verdict (λ v. IsCircuitText binary trimmed qbf.old.engine v list))
        bytes.old bytes.new count.old count.new result }
    ensures facts { qbf.old.live ≡ true → IfSome qbf.old.engine.verdict (IsVerdictOf qbf.old.engine.formula) }
{
    let Some(engine) = taken(alloc, qbf) else {
        return NO_ENGINE;
    };
    let form = Form { binary, trimmed };
    let code = texts::certificate(alloc, &engine, form, bytes, count);
    *qbf = Handle::of(engine);
    code
}

/// The trace of the last verdict's proof in the format QRP, into the buffer; `count` tells how many bytes it has.
#[unsafe(no_mangle)]
pub extern "C" fn qbf_trace(
    alloc: Global,
    qbf: &mut Handle,
    bytes: &mut [u8],
    count: &mut usize,
) -> u32
    ensures live { qbf.new.live ≡ qbf.old.live }
    ensures none { qbf.old.live ≡ false → AreLeftOut bytes.old bytes.new count.old count.new result }
    ensures same { qbf.old.live ≡ true → qbf.new.engine ≡ qbf.old.engine }
    ensures says { qbf.old.live ≡ true → Fills (ask_refusal_code qbf.old.engine)
        (λ list. IfSome qbf.old.engine.verdict (λ v. IsTraceText qbf.old.engine v list))
        bytes.old bytes.new count.old count.new result }
    ensures facts { qbf.old.live ≡ true → IfSome qbf.old.engine.verdict (IsVerdictOf qbf.old.engine.formula) }
{
    let Some(engine) = taken(alloc, qbf) else {
        return NO_ENGINE;
    };
    let code = texts::trace(alloc, &engine, bytes, count);
    *qbf = Handle::of(engine);
    code
}
