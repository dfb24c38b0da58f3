//! Texts, what is read of them, and the truth of their formulas by the plain decider.
ghost use Rattle.std.specs.Prelude.{IfOk};
ghost use Rattle.qcir_reader.specs.Answers.{IsSmall};

use crate::drawn::DRAWN;
use ports::{Desk, Input, MemoryDesk};
use qcir::{Circuit, translate};
use qcir_reader::{QcirRefusal, read_qcir};
use std::alloc::Global;
use std::test::Fail;
use steps::Steps;
use truth::{Formula, decide_plain};

// The input `-` with this text.
fn input_of(alloc: Global, text: &[u8]) -> Result<Input, Fail> {
    let name = String::from_str(alloc, "-")?;
    let bytes = Vec::from_slice(alloc, text)?;
    Ok(Input { name, bytes })
}

fn put_input(inputs: &mut Vec<Input>, alloc: Global, text: &[u8]) -> Result<(), Fail> {
    inputs.push(input_of(alloc, text)?)?;
    Ok(())
}

fn inputs_of(alloc: Global, text: &[u8]) -> Result<Vec<Input>, Fail> {
    let mut inputs = Vec::new(alloc);
    put_input(&mut inputs, alloc, text)?;
    Ok(inputs)
}

// A desk with this text, that gives at most seven bytes a read.
fn desk_with(alloc: Global, text: &[u8]) -> Result<MemoryDesk, Fail> {
    let inputs = inputs_of(alloc, text)?;
    let mut desk = MemoryDesk::new(inputs, 7, Vec::new(alloc));
    desk.choose("-")?;
    Ok(desk)
}

fn circuit_of(alloc: Global, text: &[u8]) -> Result<Circuit, Fail>
    ensures { IfOk result IsSmall }
{
    let mut desk = desk_with(alloc, text)?;
    Ok(read_qcir(alloc, &mut desk)?)
}

fn formula_of(alloc: Global, text: &[u8]) -> Result<Formula, Fail> {
    let circuit = circuit_of(alloc, text)?;
    Ok(translate(alloc, &circuit)?)
}

// Whether the circuit of a text is true.
fn is_true(alloc: Global, text: &[u8]) -> Result<bool, Fail> {
    let formula = formula_of(alloc, text)?;
    Ok(decide_plain(alloc, &formula, &mut Steps::new(10_000))?)
}

// The circuits of texts are true or not, as these say. Fails with the place of the first one that isn't so.
fn are_true(alloc: Global, cases: &[(&str, bool)]) -> Result<(), Fail> {
    for (place, (text, want)) in cases.iter().enumerate() {
        if is_true(alloc, text.as_bytes())? != *want {
            return Err(("text", place))?;
        }
    }
    Ok(())
}

#[test]
fn texts_are_true_where_their_circuits_are(rt: HostRuntime) -> Result<(), Fail> {
    let cases = [
        (
            "#QCIR-14\nforall(1)\nexists(2)\noutput(5)\n3 = and(1, 2)\n4 = and(-1, -2)\n5 = or(3, 4)\n",
            true,
        ),
        (
            "#QCIR-14\nexists(2)\nforall(1)\noutput(5)\n3 = and(1, 2)\n4 = and(-1, -2)\n5 = or(3, 4)\n",
            false,
        ),
        ("exists(1)\noutput(1)", true),
        ("forall(1)output(-1)", false),
        ("output(2)\n2 = or()#)\n", false),
        ("output(-2)\n2\n=\nor\n(\n)\n", true),
    ];
    are_true(rt.alloc(), &cases)
}

// Whether the text of a desk is refused with this number on this line.
fn refuses(alloc: Global, desk: &mut MemoryDesk, number: u8, line: u32) -> bool {
    read_qcir(alloc, desk).err() == Some(QcirRefusal::Refused { number, line })
}

fn is_refused(alloc: Global, text: &[u8], number: u8, line: u32) -> Result<bool, Fail> {
    let mut desk = desk_with(alloc, text)?;
    Ok(refuses(alloc, &mut desk, number, line))
}

// Texts are refused with these numbers on these lines. Fails with the place of the first one that isn't so.
fn are_refused(alloc: Global, cases: &[(&str, u8, u32)]) -> Result<(), Fail> {
    for (place, (text, number, line)) in cases.iter().enumerate() {
        if !is_refused(alloc, text.as_bytes(), *number, *line)? {
            return Err(("text", place))?;
        }
    }
    Ok(())
}

#[test]
fn texts_are_refused_with_number_and_line(rt: HostRuntime) -> Result<(), Fail> {
    let cases = [
        ("", 70, 1),
        ("exists(1)\noutput(1", 70, 2),
        ("exists(1)\n#output(1)\nforall(2)\n", 70, 4),
        ("exists(1)\noutput(1)\nforall(2)\n", 70, 3),
        ("exists(\u{e9})\n", 7, 1),
        ("exists(9223372036854775808)", 8, 1),
        ("exists(1)\nforall(-2)\n", 71, 2),
        ("exists(1048577)", 71, 1),
        ("exists(1)\noutput(3)\n2 = xor(1, 1)\n", 72, 3),
        ("exists(1)\noutput(3)\n3 = forall(2; 1)\n", 72, 3),
        ("exists(1, 1)", 73, 1),
        ("output(2)\n2 = and()\n2 = and()\n", 73, 3),
        ("exists(1)\noutput(3)\n2 = and(1)\n", 74, 2),
        ("output(2)\n2 = and(3)\n3 = or()\n", 74, 2),
    ];
    are_refused(rt.alloc(), &cases)
}

// How many lines there are with a circuit. Fails with the place among these of the first one that isn't true where its
// line says so.
fn count_told(alloc: Global, lines: &str) -> Result<u32, Fail> {
    let mut count = 0u32;
    for line in lines.split('\n') {
        let bytes = line.as_bytes();
        if bytes.len() > 1 {
            let want = bytes[0] == b'1';
            if is_true(alloc, &bytes[1..])? != want {
                return Err(("circuit", count))?;
            }
            count = count.saturating_add(1);
        }
    }
    Ok(count)
}

#[test]
fn drawn_circuits_are_true_where_their_tables_say(rt: HostRuntime) -> Result<(), Fail> {
    let count = count_told(rt.alloc(), DRAWN)?;
    assert_eq!(rt; count, 300);
    Ok(())
}
