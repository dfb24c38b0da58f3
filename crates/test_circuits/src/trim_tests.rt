//! Texts of trimmed circuits.
ghost use Rattle.aig.specs.Strategies.{IsStrategy};

use crate::gates::strategy;
use aig::Strategy;
use aiger_out::write_aag;
use ports::MemorySink;
use prefix::Quant;
use std::alloc::Global;
use std::test::Fail;
use trim::trim;

// A circuit over the inputs 1 and 2, by the literals of its gates' edges and of its outputs, and its text trimmed.
#[derive(Clone, Copy)]
struct Row {
    gates: &'static [(usize, usize)],
    outputs: &'static [(u32, usize)],
    text: &'static str,
}

const ROWS: [Row; 9] = [
    // An input as the output, so that no gate is left.
    Row {
        gates: &[(4, 2)],
        outputs: &[(3, 2)],
        text: "aag 2 2 0 1 0\n2\n4\n2\ni0 1\ni1 2\no0 3\nc\nskolem\n",
    },
    // Nothing is trimmed.
    Row {
        gates: &[(4, 2)],
        outputs: &[(3, 7)],
        text: "aag 3 2 0 1 1\n2\n4\n7\n6 4 2\ni0 1\ni1 2\no0 3\nc\nskolem\n",
    },
    // The first gate is not reached.
    Row {
        gates: &[(4, 2), (5, 3), (9, 2)],
        outputs: &[(3, 11), (4, 8)],
        text: "aag 4 2 0 2 2\n2\n4\n9\n6\n6 5 3\n8 7 2\ni0 1\ni1 2\no0 3\no1 4\nc\nskolem\n",
    },
    // One between others is not.
    Row {
        gates: &[(4, 2), (5, 3), (7, 2)],
        outputs: &[(3, 10)],
        text: "aag 4 2 0 1 2\n2\n4\n8\n6 4 2\n8 7 2\ni0 1\ni1 2\no0 3\nc\nskolem\n",
    },
    // The last ones are not.
    Row {
        gates: &[(4, 2), (7, 2), (8, 5)],
        outputs: &[(4, 6), (3, 7)],
        text: "aag 3 2 0 2 1\n2\n4\n6\n7\n6 4 2\ni0 1\ni1 2\no0 4\no1 3\nc\nskolem\n",
    },
    // A gate that two others come from; one behind them and one between them are not reached.
    Row {
        gates: &[(4, 2), (7, 4), (5, 3), (7, 2), (13, 9), (14, 2)],
        outputs: &[(3, 15)],
        text: "aag 6 2 0 1 4\n2\n4\n13\n6 4 2\n8 7 4\n10 7 2\n12 11 9\ni0 1\ni1 2\no0 3\nc\nskolem\n",
    },
    // Constants.
    Row {
        gates: &[(4, 2)],
        outputs: &[(3, 0), (4, 1)],
        text: "aag 2 2 0 2 0\n2\n4\n0\n1\ni0 1\ni1 2\no0 3\no1 4\nc\nskolem\n",
    },
    // An input, its opposite and a gate, in no order.
    Row {
        gates: &[(5, 2), (4, 2)],
        outputs: &[(5, 8), (3, 5), (4, 4)],
        text: "aag 3 2 0 3 1\n2\n4\n6\n5\n4\n6 4 2\ni0 1\ni1 2\no0 5\no1 3\no2 4\nc\nskolem\n",
    },
    // No output.
    Row {
        gates: &[(4, 2), (5, 3)],
        outputs: &[],
        text: "aag 2 2 0 0 0\n2\n4\ni0 1\ni1 2\nc\nskolem\n",
    },
];

// The first row's circuit with another output, of the universal player.
const HERBRAND: Row = Row {
    gates: &[(4, 2)],
    outputs: &[(3, 3)],
    text: "aag 2 2 0 1 0\n2\n4\n3\ni0 1\ni1 2\no0 3\nc\nherbrand\n",
};

// Whether a circuit is written so.
fn is_written(sink: &mut MemorySink, strategy: &Strategy, text: &str) -> Result<bool, Fail>
    requires { IsStrategy strategy.now }
{
    write_aag(strategy, sink)?;
    Ok(sink.bytes() == text.as_bytes())
}

// The same in a new sink.
fn has_text(alloc: Global, strategy: &Strategy, text: &str) -> Result<bool, Fail>
    requires { IsStrategy strategy.now }
{
    let mut sink = MemorySink::new(alloc, 256, 256, Vec::new(alloc))?;
    is_written(&mut sink, strategy, text)
}

// Whether a circuit has this text once it is trimmed.
fn is_trimmed(alloc: Global, strategy: &Strategy, text: &str) -> Result<bool, Fail>
    requires { IsStrategy strategy.now }
{
    let trimmed = trim(alloc, strategy)?;
    has_text(alloc, &trimmed, text)
}

// Whether it has this text once it is trimmed twice.
fn is_trimmed_again(alloc: Global, strategy: &Strategy, text: &str) -> Result<bool, Fail>
    requires { IsStrategy strategy.now }
{
    let once = trim(alloc, strategy)?;
    is_trimmed(alloc, &once, text)
}

// How often a circuit is trimmed.
#[derive(Clone, Copy)]
enum Times {
    Once,
    Twice,
}

fn is_right(alloc: Global, strategy: &Strategy, text: &str, times: Times) -> Result<bool, Fail>
    requires { IsStrategy strategy.now }
{
    match times {
        Times::Once => is_trimmed(alloc, strategy, text),
        Times::Twice => is_trimmed_again(alloc, strategy, text),
    }
}

// Whether the circuit of a row has the row's text once it is trimmed so often.
fn holds(alloc: Global, winner: Quant, row: Row, times: Times) -> Result<bool, Fail> {
    let strategy = strategy(alloc, winner, row.gates, row.outputs)?;
    is_right(alloc, &strategy, row.text, times)
}

// The same of each row. Fails with the text of the first one that isn't so.
fn hold(alloc: Global, rows: &[Row], times: Times) -> Result<(), Fail> {
    for row in rows {
        if !holds(alloc, Quant::Exists, *row, times)? {
            return Err(row.text)?;
        }
    }
    Ok(())
}

#[test]
fn trimmed_circuits_have_these_texts(rt: HostRuntime) -> Result<(), Fail> {
    hold(rt.alloc(), &ROWS, Times::Once)
}

#[test]
fn trimmed_again_they_stay(rt: HostRuntime) -> Result<(), Fail> {
    hold(rt.alloc(), &ROWS, Times::Twice)
}

#[test]
fn the_winner_stays(rt: HostRuntime) -> Result<(), Fail> {
    assert!(rt; holds(rt.alloc(), Quant::Forall, HERBRAND, Times::Once)?);
    Ok(())
}
