//! Calls of the program over lent texts and buffers.
ghost use Rattle.std.specs.Prelude.{length, ◌≤◌};

use calls::{Done, call};
use std::test::Fail;

const FORMULA: &[u8] = b"p cnf 2 2\na 1 0\ne 2 0\n1 2 0\n-1 -2 0\n";

const SCRIPT: &[u8] = b"p qscript 1\nscope e\nvar 1 1\nclause -1 0\nsolve\nvalue 1\n";

// A command line with an input, how much of the buffers is lent, and what is to come of it.
struct Row {
    line: &'static [u8],
    input: &'static [u8],
    room: usize,
    status: u32,
    output: &'static [u8],
    error: &'static [u8],
}

const ROWS: [Row; 6] = [
    Row {
        line: b"solve",
        input: FORMULA,
        room: 64,
        status: 10,
        output: b"SAT\n",
        error: b"",
    },
    Row {
        line: b" script\t",
        input: SCRIPT,
        room: 64,
        status: 0,
        output: b"SAT\nvalue -1\n",
        error: b"",
    },
    Row {
        line: b"solve any",
        input: FORMULA,
        room: 4,
        status: 10,
        output: b"SAT\n",
        error: b"",
    },
    Row {
        line: b"solve",
        input: FORMULA,
        room: 3,
        status: 4,
        output: b"SAT",
        error: b"qbf",
    },
    Row {
        line: b"solve",
        input: b"p cnf 1 1\n2 0\n",
        room: 64,
        status: 2,
        output: b"",
        error: b"qbf: line 2: refused 12\n",
    },
    Row {
        line: b"solve \xff",
        input: FORMULA,
        room: 64,
        status: 7,
        output: b"",
        error: b"",
    },
];

#[test]
fn each_call_ends_as_it_should(rt: HostRuntime) -> Result<(), Fail> {
    let mut out = [0; 64];
    let mut error = [0; 64];
    for row in &ROWS {
        let done = call(
            rt.alloc(),
            row.line,
            row.input,
            &mut out[..row.room.min(64)],
            &mut error[..row.room.min(64)],
        );
        assert_eq!(rt; done.status, row.status);
        assert!(rt; out.get(..done.written) == Some(row.output));
        assert!(rt; error.get(..done.said) == Some(row.error));
    }
    Ok(())
}
