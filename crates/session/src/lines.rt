//! The lines of replies.
ghost use Rattle.std.specs.Prelude.{◌≡◌, ◌+◌, ◌≤◌, ◌<◌, ◌++◌, ◌∷◌, codes, flat_map};
ghost use Rattle.std.specs.Fmt.{decimal};
ghost use Rattle.qrp_trace.specs.Texts.{literal_word, number_word};
ghost use Rattle.ports.specs.Writing.{Writes};
ghost use Rattle.blocks.specs.Held.{Puts};
ghost use Rattle.session.specs.Replies.{core_text, refused_text, relevant_text, value_text};

use blocks::{Block, LineText};
use ports::{Failed, Sink};
use prefix::Lit;
use qrp_trace::put_literals;
use solve::write;

// Writes that a command is refused.
pub(crate) fn write_refused<S: Sink>(number: u8, sink: &mut S) -> Result<(), Failed>
    ensures { Writes S.written S.flushed S.faults S.has_room sink.old sink.new (refused_text number) result }
{
    write(refused_line(number).bytes(), sink)
}

// Writes the value of a variable.
pub(crate) fn write_value<S: Sink>(lit: Lit, sink: &mut S) -> Result<(), Failed>
    ensures { Writes S.written S.flushed S.faults S.has_room sink.old sink.new (value_text lit) result }
{
    write(value_line(lit).bytes(), sink)
}

// Writes assumptions, in blocks.
pub(crate) fn write_relevant<S: Sink>(lits: &[Lit], sink: &mut S) -> Result<(), Failed>
    ensures { Writes S.written S.flushed S.faults S.has_room sink.old sink.new (relevant_text lits.now) result }
{
    let mut block = Block::new();
    put_relevant(lits, &mut block, sink)?;
    block.finish(sink)
}

// Puts the line of assumptions.
fn put_relevant<S: Sink>(lits: &[Lit], block: &mut Block, sink: &mut S) -> Result<(), Failed>
    ensures { Puts S.written S.flushed S.faults S.has_room sink.old block.old sink.new block.new
        (relevant_text lits.now) result }
{
    block.put(b"relevant ", sink)?;
    put_literals(lits, block, sink)?;
    block.put(b"0\n", sink)
}

// Writes the numbers of a core's groups, in blocks.
pub(crate) fn write_groups<S: Sink>(groups: &[u32], sink: &mut S) -> Result<(), Failed>
    ensures { Writes S.written S.flushed S.faults S.has_room sink.old sink.new (core_text groups.now) result }
{
    let mut block = Block::new();
    put_groups(groups, &mut block, sink)?;
    block.finish(sink)
}

// Puts the line of a core.
fn put_groups<S: Sink>(groups: &[u32], block: &mut Block, sink: &mut S) -> Result<(), Failed>
    ensures { Puts S.written S.flushed S.faults S.has_room sink.old block.old sink.new block.new
        (core_text groups.now) result }
{
    block.put(b"core ", sink)?;
    put_numbers(groups, block, sink)?;
    block.put(b"0\n", sink)
}

// Puts numbers, each with a blank behind it.
fn put_numbers<S: Sink>(numbers: &[u32], block: &mut Block, sink: &mut S) -> Result<(), Failed>
    ensures { Puts S.written S.flushed S.faults S.has_room sink.old block.old sink.new block.new
        (flat_map number_word numbers.now) result }
{
    for number in numbers {
        put_number(*number, block, sink)?;
    }
    Ok(())
}

// Puts a number, and a blank.
fn put_number<S: Sink>(number: u32, block: &mut Block, sink: &mut S) -> Result<(), Failed>
    ensures { Puts S.written S.flushed S.faults S.has_room sink.old block.old sink.new block.new
        (number_word number) result }
{
    let mut line = LineText::new();
    line.number(number, ' ');
    block.put_line(&line, sink)
}

// The line of a refused command.
fn refused_line(number: u8) -> LineText
    ensures { result ≡ refused_text number }
{
    let mut line = LineText::new();
    line.word("refused ");
    line.number(number, '\n');
    line
}

// The line of a variable's value.
fn value_line(lit: Lit) -> LineText
    ensures { result ≡ value_text lit }
{
    let mut line = LineText::new();
    line.word("value ");
    if !lit.is_positive() {
        line.word("-");
    }
    line.number(lit.var().number(), '\n');
    line
}
