//! Formulas as texts.
ghost use Rattle.std.specs.Prelude.{◌≡◌, true, false, IfSome};
ghost use Rattle.std.specs.List.{AllByRecursion};
ghost use Rattle.prefix.specs.Scopes.{IsPrefix};
ghost use Rattle.calculus.specs.Rows.{IsRow};
ghost use Rattle.frames.specs.State.{open_clauses};
ghost use Rattle.engine.specs.Asks.{IsVerdictOf};
ghost use Rattle.qbf_c.specs.Buffers.{AreLeftOut};
ghost use Rattle.qbf_c.specs.Formulas.{CheckSays, WriteSays};
ghost use Rattle.qbf_c.specs.Read.{ReadSays};

use crate::code::NO_ENGINE;
use crate::exports::making::hold;
use crate::formulas;
use crate::handle::{Handle, taken};
use crate::reads::{engine_from, refused};
use std::alloc::Global;

/// Makes an engine of version 1 in the handle that holds the formula of a QDIMACS 1.1 text, and frees what this held. A
/// text that is no formula is refused; `line` tells where.
#[unsafe(no_mangle)]
pub extern "C" fn qbf_read(alloc: Global, qbf: &mut Handle, text: &[u8], line: &mut u32) -> u32
    ensures { ReadSays text.now (qbf.new ≡ qbf.old) qbf.new.live qbf.new.engine line.old line.new result }
{
    match engine_from(alloc, text) {
        Ok(engine) => hold(alloc, qbf, engine),
        Err(refusal) => refused(refusal, line),
    }
}

/// The open formula as a QDIMACS 1.1 text, into the buffer; `count` tells how many bytes it has. A header declares at
/// most 2^32 - 1 clauses: beyond these there is no text.
#[unsafe(no_mangle)]
pub extern "C" fn qbf_write(
    alloc: Global,
    qbf: &mut Handle,
    bytes: &mut [u8],
    count: &mut usize,
) -> u32
    ensures live { qbf.new.live ≡ qbf.old.live }
    ensures none { qbf.old.live ≡ false → AreLeftOut bytes.old bytes.new count.old count.new result }
    ensures same { qbf.old.live ≡ true → qbf.new.engine ≡ qbf.old.engine }
    ensures says { qbf.old.live ≡ true → WriteSays qbf.old.engine.formula
        bytes.old bytes.new count.old count.new result }
    ensures valid { qbf.old.live ≡ true → IsPrefix qbf.old.engine.formula.scopes }
    ensures rows { qbf.old.live ≡ true → AllByRecursion (IsRow qbf.old.engine.formula.scopes)
        (open_clauses qbf.old.engine.formula) }
{
    let Some(engine) = taken(alloc, qbf) else {
        return NO_ENGINE;
    };
    let code = formulas::write(alloc, &engine, bytes, count);
    *qbf = Handle::of(engine);
    code
}

/// The check formula of the last verdict's circuit as a QDIMACS 1.1 text, into the buffer; `count` tells how many bytes
/// it has.
#[unsafe(no_mangle)]
pub extern "C" fn qbf_check_formula(
    alloc: Global,
    qbf: &mut Handle,
    trimmed: bool,
    bytes: &mut [u8],
    count: &mut usize,
) -> u32
    ensures live { qbf.new.live ≡ qbf.old.live }
    ensures none { qbf.old.live ≡ false → AreLeftOut bytes.old bytes.new count.old count.new result }
    ensures same { qbf.old.live ≡ true → qbf.new.engine ≡ qbf.old.engine }
    ensures says { qbf.old.live ≡ true → CheckSays trimmed qbf.old.engine
        bytes.old bytes.new count.old count.new result }
    ensures facts { qbf.old.live ≡ true → IfSome qbf.old.engine.verdict (IsVerdictOf qbf.old.engine.formula) }
{
    let Some(engine) = taken(alloc, qbf) else {
        return NO_ENGINE;
    };
    let code = formulas::check_formula(alloc, &engine, trimmed, bytes, count);
    *qbf = Handle::of(engine);
    code
}
