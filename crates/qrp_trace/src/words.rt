//! Words of the text of a trace.
ghost use Rattle.std.specs.Prelude.{◌≡◌, ◌++◌, codes};
ghost use Rattle.std.specs.List.{flat_map};
ghost use Rattle.qrp_trace.specs.Texts.{antecedents_of, header_line, literal_word, number_word};

use blocks::LineText;
use prefix::Lit;
use step_core::CoreStep;

// The first line, with the greatest number of a variable and the number of steps.
pub(crate) fn header(variables: usize, steps: usize) -> LineText
    ensures { result ≡ header_line variables steps }
{
    let mut line = LineText::new();
    line.word("p qrp ");
    line.number(variables, ' ');
    line.number(steps, '\n');
    line
}

// A number, and a blank.
pub(crate) fn number(n: usize) -> LineText
    ensures { result ≡ number_word n }
{
    let mut line = LineText::new();
    line.number(n, ' ');
    line
}

// A literal, and a blank.
pub(crate) fn literal(lit: Lit) -> LineText
    ensures { result ≡ literal_word lit }
{
    let mut line = LineText::new();
    if !lit.is_positive() {
        line.word("-");
    }
    line.number(lit.var().number() as usize, ' ');
    line
}

// What ends the line of a step: 0 behind its literals, the numbers of what it rests on, ascending, and 0.
pub(crate) fn antecedents(step: CoreStep) -> LineText
    ensures { result ≡ codes "0 " ++ (flat_map number_word (antecedents_of step) ++ codes "0\n") }
{
    let mut line = LineText::new();
    line.word("0 ");
    match step {
        CoreStep::Input => {}
        CoreStep::One(k) => line.number(k, ' '),
        CoreStep::Two {
            positive,
            negative,
            ..
        } => {
            line.number(positive.min(negative), ' ');
            line.number(positive.max(negative), ' ');
        }
    }
    line.word("0\n");
    line
}
