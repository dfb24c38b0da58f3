//! Scripts and what is read of them.
ghost use Rattle.std.specs.Prelude.{◌≡◌, ◌<◌, None, false};

use crate::build::failing_desk;
use ports::Desk;
use qscript::{NumList, ScriptReader};
use std::alloc::Global;
use std::test::Fail;

// Writes the next command, or the end, or the refusal. Whether more may come.
fn write_next<D: Desk>(
    reader: &mut ScriptReader,
    desk: &mut D,
    to: &mut String,
) -> Result<bool, Fail> {
    if reader.has_failed() {
        return Ok(false);
    }
    match reader.next_command(desk) {
        Ok(Some(command)) => {
            write!(to, "{command:?}; ")?;
            Ok(true)
        }
        Ok(None) => {
            to.push_str("end")?;
            Ok(false)
        }
        Err(refusal) => {
            write!(to, "{refusal}")?;
            Ok(true)
        }
    }
}

// The same for all commands.
fn write_commands<D: Desk>(
    reader: &mut ScriptReader,
    desk: &mut D,
    to: &mut String,
) -> Result<(), Fail> {
    for _ in 0..40 {
        if !write_next(reader, desk, to)? {
            break;
        }
    }
    Ok(())
}

// Writes the version that the header names, or its refusal.
fn write_header<D: Desk>(
    reader: &mut ScriptReader,
    desk: &mut D,
    to: &mut String,
) -> Result<(), Fail>
    requires front { reader.old.version ≡ None }
    requires ready { reader.old.failed ≡ false }
{
    match reader.read_header(desk) {
        Ok(version) => write!(to, "{version:?}: ")?,
        Err(refusal) => write!(to, "{refusal}")?,
    }
    Ok(())
}

// Each command, then the end or the refusal, of what is left on a desk, behind the version or the refusal of a header
// that is asked for first.
fn read_from<D: Desk>(alloc: Global, is_headed: bool, desk: &mut D) -> Result<String, Fail> {
    let mut reader = ScriptReader::new(alloc)?;
    let mut to = String::new(alloc);
    if is_headed {
        write_header(&mut reader, desk, &mut to)?;
    }
    write_commands(&mut reader, desk, &mut to)?;
    Ok(to)
}

// The same for a script on a desk that gives at most so many bytes a read, and whose call with this number fails.
fn read(
    alloc: Global,
    is_headed: bool,
    text: &str,
    greatest: usize,
    failing: u64,
) -> Result<String, Fail>
    requires { 0 < greatest }
{
    let failing = vec![in alloc; failing]?;
    let mut desk = failing_desk(alloc, text.as_bytes(), greatest, failing)?;
    read_from(alloc, is_headed, &mut desk)
}

// Whether a script is read so, where no call fails.
fn is_read(
    alloc: Global,
    is_headed: bool,
    text: &str,
    greatest: usize,
    want: &str,
) -> Result<bool, Fail>
    requires { 0 < greatest }
{
    Ok(read(alloc, is_headed, text, greatest, 0)?.as_str() == want)
}

#[test]
fn headers_name_their_version(rt: HostRuntime) -> Result<(), Fail> {
    let alloc = rt.alloc();
    for (text, want) in [
        ("p qscript 1\nsolve\npop", "One: Solve; Pop; end"),
        ("p qscript 2\nsolve\npop", "Two: Solve; Pop; end"),
        ("c x\n\n p  qscript\t02\r\nc\npop\n", "Two: Pop; end"),
        ("p qscript 1", "One: end"),
        ("p qscript 2\n", "Two: end"),
        ("p qscript 2\njump\n", "Two: line 2: refused with number 31"),
        (
            "p qscript 2\np qscript 1\n",
            "Two: line 2: refused with number 31",
        ),
        ("p qscript 2\n\u{e9}", "Two: line 2: refused with number 7"),
        (
            "p qscript 3\nopen 1\nclose\nactivate 02\ndeactivate 3\ncore\n",
            "Three: OpenGroup(1); CloseGroup; Activate(2); Deactivate(3); GroupCore; end",
        ),
        (
            "p qscript 3\nopen\n",
            "Three: line 2: refused with number 32",
        ),
        (
            "p qscript 3\nopen -1\n",
            "Three: line 2: refused with number 32",
        ),
        (
            "p qscript 3\nclose 1\n",
            "Three: line 2: refused with number 32",
        ),
        ("p qscript 2\ncore\n", "Two: line 2: refused with number 31"),
        (
            "p qscript 1\nopen 1\n",
            "One: line 2: refused with number 31",
        ),
    ] {
        for greatest in [1, 4096] {
            assert!(rt; is_read(alloc, true, text, greatest, want)?, "{text}");
        }
    }
    Ok(())
}

#[test]
fn other_headers_are_refused(rt: HostRuntime) -> Result<(), Fail> {
    let alloc = rt.alloc();
    for (text, want) in [
        ("", "line 1: refused with number 30"),
        ("c\n\n", "line 3: refused with number 30"),
        ("\nsolve\np qscript 1", "line 2: refused with number 30"),
        ("p qscript", "line 1: refused with number 30"),
        ("p qscript\n2", "line 1: refused with number 30"),
        ("p qscript 0", "line 1: refused with number 30"),
        ("p qscript -1", "line 1: refused with number 30"),
        ("p qscript 4", "line 1: refused with number 30"),
        ("p qscript 9", "line 1: refused with number 30"),
        ("p qscript 1 1", "line 1: refused with number 30"),
        ("p qscript 2 x", "line 1: refused with number 30"),
        ("p cnf 2", "line 1: refused with number 30"),
        ("p qscript 2 \u{e9}", "line 1: refused with number 7"),
        (
            "p qscript 9223372036854775808",
            "line 1: refused with number 8",
        ),
    ] {
        for is_headed in [true, false] {
            assert!(rt; is_read(alloc, is_headed, text, 4096, want)?, "{text}");
        }
    }
    Ok(())
}

#[test]
fn scripts_are_read_as_their_commands(rt: HostRuntime) -> Result<(), Fail> {
    let alloc = rt.alloc();
    for (text, want) in [
        (
            "p qscript 1\nscope e\nvar 1 1\nclause 1 0\nsolve\npush\nclause -1 0\nsolve\npop\nsolve\n",
            "Scope { quant: Exists, at: None }; Var { var: 1, scope: 1 }; Clause(NumList { numbers: [1] }); Solve; \
             Push; Clause(NumList { numbers: [-1] }); Solve; Pop; Solve; end",
        ),
        (
            "p qscript 1\nscope a 1\nassume -3\nvalue 1\nrelevant\ntrace\ncert",
            "Scope { quant: Forall, at: Some(1) }; Assume(-3); Value(1); Relevant; Trace; Cert; end",
        ),
        (
            "p qscript 1\nsolve\njump\n",
            "Solve; line 3: refused with number 31",
        ),
        (
            "p qscript 1\r\nc x\n\nclause 0\r\n",
            "Clause(NumList { numbers: [] }); end",
        ),
        ("p qscript 2\nsolve\n", "Solve; end"),
    ] {
        for greatest in [1, 4096] {
            assert!(rt; is_read(alloc, false, text, greatest, want)?, "{text}");
        }
    }
    Ok(())
}

#[test]
fn malformed_lines_are_refused(rt: HostRuntime) -> Result<(), Fail> {
    let alloc = rt.alloc();
    for (text, want) in [
        ("p qscript 1\ncx", "line 2: refused with number 31"),
        ("p qscript 1\n5", "line 2: refused with number 31"),
        ("p qscript 1\nvar 1", "line 2: refused with number 32"),
        ("p qscript 1\nclause 1\n0", "line 2: refused with number 32"),
        (
            "p qscript 1\nclause 1 0 0",
            "line 2: refused with number 32",
        ),
        (
            "p qscript 1\nclause 1\n\u{e9}",
            "line 2: refused with number 32",
        ),
        (
            "p qscript 1\nsolve\n\u{e9}",
            "Solve; line 3: refused with number 7",
        ),
    ] {
        assert!(rt; is_read(alloc, false, text, 4096, want)?, "{text}");
    }
    Ok(())
}

#[test]
fn a_failed_read_is_told(rt: HostRuntime) -> Result<(), Fail> {
    let alloc = rt.alloc();
    for (is_headed, text, failing, want) in [
        (
            false,
            "p qscript 1\nsolve\nsolve\n",
            4,
            "Solve; Solve; the text can't be read",
        ),
        (true, "p qscript 1\n", 2, "the text can't be read"),
        // The sixteen bytes of the second call are two whole lines.
        (
            true,
            "p qscript 1\npop\n",
            3,
            "One: Pop; the text can't be read",
        ),
    ] {
        let found = read(alloc, is_headed, text, 16, failing)?;
        assert!(rt; found.as_str() == want, "{text}");
    }
    Ok(())
}

#[test]
fn lists_of_numbers_come_from_vectors_and_go_back(rt: HostRuntime) -> Result<(), Fail> {
    let alloc = rt.alloc();
    let mut list = NumList::from_vec(vec![in alloc; 7, -2]?);
    list.push(5)?;
    assert_eq!(rt; list.numbers().len(), 3);
    assert_eq!(rt; list.into_vec().len(), 3);
    Ok(())
}
