//! Words of the text of a formula.
ghost use Rattle.std.specs.Prelude.{◌≡◌};
ghost use Rattle.std.specs.Fmt.{decimal};
ghost use Rattle.blocks.specs.Lines.{line_text, spaced};
ghost use Rattle.qdimacs_out.specs.Texts.{header_line, literal_word};

use blocks::LineText;
use prefix::{Lit, Var};

// The first line, with the declared numbers of variables and of clauses.
pub(crate) fn header(vars: u32, clauses: u32) -> LineText
    ensures { result ≡ line_text (header_line vars clauses) }
{
    let mut line = LineText::new();
    line.word("p cnf ");
    line.number(vars, ' ');
    line.number(clauses, '\n');
    line
}

// The number of a variable, and a blank.
pub(crate) fn variable(v: Var) -> LineText
    ensures { result ≡ spaced (decimal v) }
{
    let mut line = LineText::new();
    line.number(v.number(), ' ');
    line
}

// The number of a literal, and a blank.
pub(crate) fn literal(lit: Lit) -> LineText
    ensures { result ≡ spaced (literal_word lit) }
{
    let mut line = LineText::new();
    line.number(lit.number(), ' ');
    line
}
