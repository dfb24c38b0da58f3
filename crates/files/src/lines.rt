//! The lines of QDIMACS 1.1's output format.
ghost use Rattle.std.specs.Prelude.{◌≡◌, ◌+◌, ◌≤◌, ◌<◌, ◌++◌, ◌∷◌, codes};
ghost use Rattle.std.specs.Fmt.{decimal};
ghost use Rattle.ports.specs.Writing.{Writes};
ghost use Rattle.blocks.specs.Held.{Puts};
ghost use Rattle.files.specs.Jobs.{IsHeaderOf, result_number, solution_line, value_line as line_of_value};
ghost use Rattle.truth.specs.declared.formula.Formula.{Formula};

use crate::file::Header;
use blocks::{Block, LineText};
use ports::{Failed, Sink};
use prefix::Lit;
use solve::{Answer, write};

// Writes the solution line of an answer, with the numbers of a header.
pub(crate) fn write_solution<S: Sink>(
    answer: Answer,
    header: Header,
    sink: &mut S,
) -> Result<(), Failed>
    ensures { (f : Formula) → IsHeaderOf f header → Writes S.written S.flushed S.faults S.has_room sink.old sink.new
        (solution_line answer f) result }
{
    write(solution(answer, header).bytes(), sink)
}

// Puts that line into a block.
pub(crate) fn put_solution<S: Sink>(
    answer: Answer,
    header: Header,
    block: &mut Block,
    sink: &mut S,
) -> Result<(), Failed>
    ensures { (f : Formula) → IsHeaderOf f header → Puts S.written S.flushed S.faults S.has_room sink.old block.old
        sink.new block.new (solution_line answer f) result }
{
    block.put_line(&solution(answer, header), sink)
}

// Puts the line of an outermost variable's value into a block.
pub(crate) fn put_outermost<S: Sink>(
    lit: Lit,
    block: &mut Block,
    sink: &mut S,
) -> Result<(), Failed>
    ensures { Puts S.written S.flushed S.faults S.has_room sink.old block.old sink.new block.new
        (line_of_value lit) result }
{
    block.put_line(&outermost_line(lit), sink)
}

// The solution line of an answer.
fn solution(answer: Answer, header: Header) -> LineText
    ensures { (f : Formula) → IsHeaderOf f header → result ≡ solution_line answer f }
{
    let mut line = LineText::new();
    line.word("s cnf ");
    line.word(result_of(answer));
    line.word(" ");
    line.digits(header.vars);
    line.word(" ");
    line.digits(header.clauses);
    line.word("\n");
    line
}

// The line of an outermost variable's value.
fn outermost_line(lit: Lit) -> LineText
    ensures { result ≡ line_of_value lit }
{
    let mut line = LineText::new();
    line.word("V ");
    if !lit.is_positive() {
        line.word("-");
    }
    line.digits(lit.var().number());
    line.word(" 0\n");
    line
}

// An answer as the number in a solution line.
fn result_of(answer: Answer) -> &'static str
    ensures { result.now ≡ result_number answer }
{
    match answer {
        Answer::Sat => "1",
        Answer::Unsat => "0",
        Answer::Unknown => "-1",
    }
}
