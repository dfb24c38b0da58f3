//! A formula read from a text.
ghost use Rattle.std.specs.Prelude.{◌≡◌, Some, IfOk, IfErr};
ghost use Rattle.ports.specs.Stock.{Flows};
ghost use Rattle.qbf_c.specs.Read.{IsRead, IsUnread, limit_code, text_code, text_line};

use crate::code::NO_MEMORY;
use engine::Engine;
use ports::{Desk, Input, MemoryDesk};
use qdimacs::read_formula;
use reading::{Quantity, ReadRefusal};
use solve::engine_of;
use std::alloc::Global;

// An engine that holds the formula of a text.
pub(crate) fn engine_from(alloc: Global, text: &[u8]) -> Result<Engine, ReadRefusal>
    ensures read { IfOk result (IsRead text.now) }
    ensures refused { IfErr result (IsUnread text.now) }
{
    let mut desk = desk_with(alloc, text)?;
    let f = read_formula(alloc, &mut desk)?;
    match engine_of(alloc, f) {
        Ok(engine) => Ok(engine),
        Err(_) => Err(ReadRefusal::NoMemory),
    }
}

// A desk whose chosen input is the text.
fn desk_with(alloc: Global, text: &[u8]) -> Result<MemoryDesk, ReadRefusal>
    ensures left { IfOk result (λ desk. desk.left ≡ Some text.now) }
    ensures flows { IfOk result Flows }
    ensures memory { IfErr result (λ e. e ≡ ReadRefusal.NoMemory) }
{
    let mut inputs = Vec::new(alloc);
    inputs.push(Input {
        name: String::from_str(alloc, "-")?,
        bytes: Vec::from_slice(alloc, text)?,
    })?;
    let mut desk = MemoryDesk::new(inputs, usize::MAX, Vec::new(alloc));
    match desk.choose("-") {
        Ok(()) => Ok(desk),
        Err(_) => Err(ReadRefusal::NoMemory),
    }
}

// The code of a text that is refused, and the line where one is told.
pub(crate) fn refused(refusal: ReadRefusal, line: &mut u32) -> u32
    ensures code { result ≡ text_code refusal }
    ensures line { line.new ≡ text_line refusal line.old }
{
    match refusal {
        ReadRefusal::Refused { number, line: at } => {
            *line = at;
            100 + u32::from(number)
        }
        ReadRefusal::Limit { quantity, line: at } => {
            *line = at;
            beyond(quantity)
        }
        ReadRefusal::ReadFault | ReadRefusal::NoMemory => NO_MEMORY,
    }
}

// The code of a limit.
pub(crate) fn beyond(quantity: Quantity) -> u32
    ensures { result ≡ limit_code quantity }
{
    match quantity {
        Quantity::Variables => 120,
        Quantity::Scopes => 121,
        Quantity::Clauses => 122,
        Quantity::Literals => 123,
        Quantity::Bytes => 124,
    }
}
