//! Command lines, and what the refusals of others say.
use command::{Command, Input, Refused, SolveForm, Verb, read_command};
use std::alloc::Global;
use std::test::Fail;

// What a command line comes to: a command, or a refusal with this part in its text.
type Want<'a> = Result<Command<'a>, &'a str>;

const GREATEST: u64 = u64::MAX;

const KEPT: u32 = 512;

// The command on the input of this name, with a budget alone.
fn read(verb: Verb, budget: u64, name: Option<&str>) -> Want<'_> {
    Ok(Command::Read {
        verb,
        input: Input {
            budget,
            restarts: 0,
            kept: KEPT,
            name,
        },
    })
}

fn solve(budget: u64, form: SolveForm, name: Option<&str>) -> Want<'_> {
    read(Verb::Solve { form }, budget, name)
}

fn trace(budget: u64, name: Option<&str>) -> Want<'_> {
    read(Verb::Trace, budget, name)
}

fn cert(budget: u64, name: Option<&str>) -> Want<'_> {
    let verb = Verb::Cert {
        binary: false,
        trim: false,
    };
    read(verb, budget, name)
}

fn cert_in_form(binary: bool, trim: bool, name: Option<&str>) -> Want<'_> {
    read(Verb::Cert { binary, trim }, GREATEST, name)
}

fn check(budget: u64, decide: bool, name: Option<&str>) -> Want<'_> {
    read(Verb::Check { decide }, budget, name)
}

fn script(budget: u64, name: Option<&str>) -> Want<'_> {
    read(Verb::Script, budget, name)
}

fn generated<'a>(seed: u32, vars: u32, clauses: u32) -> Want<'a> {
    Ok(Command::Gen {
        seed,
        vars,
        clauses,
    })
}

fn demo<'a>(seed: u32, count: u32) -> Want<'a> {
    Ok(Command::Demo { seed, count })
}

// Whether the words of the line, with one blank between each two, come to this.
fn comes_to(alloc: Global, line: &str, want: Want<'_>) -> Result<bool, Fail> {
    let mut words = Vec::new(alloc);
    for word in line.split(' ') {
        words.push(String::from_str(alloc, word)?)?;
    }
    match (read_command(alloc, &words), want) {
        (Ok(command), Ok(wanted)) => Ok(command == wanted),
        (Err(Refused::Usage(text)), Err(part)) => Ok(
            text.as_str().contains(part) && text.as_str().ends_with('\n'),
        ),
        _ => Ok(false),
    }
}

#[test]
fn commands_with_an_input_are_read(rt: HostRuntime) -> Result<(), Fail> {
    for (line, want) in [
        ("qbf solve", solve(GREATEST, SolveForm::Plain, None)),
        ("qbf solve f", solve(GREATEST, SolveForm::Plain, Some("f"))),
        ("qbf solve ", solve(GREATEST, SolveForm::Plain, Some(""))),
        (
            "qbf solve script",
            solve(GREATEST, SolveForm::Plain, Some("script")),
        ),
        ("qbf solve --budget 0", solve(0, SolveForm::Plain, None)),
        (
            "qbf solve --budget=32 f",
            solve(32, SolveForm::Plain, Some("f")),
        ),
        (
            "qbf solve f --budget 7",
            solve(7, SolveForm::Plain, Some("f")),
        ),
        (
            "qbf solve --budget 18446744073709551615",
            solve(GREATEST, SolveForm::Plain, None),
        ),
        ("qbf solve --qdo", solve(GREATEST, SolveForm::Qdo, None)),
        (
            "qbf solve --qdo f",
            solve(GREATEST, SolveForm::Qdo, Some("f")),
        ),
        (
            "qbf solve f --qdo",
            solve(GREATEST, SolveForm::Qdo, Some("f")),
        ),
        ("qbf solve --qdo --budget 7", solve(7, SolveForm::Qdo, None)),
        ("qbf solve --budget=7 --qdo", solve(7, SolveForm::Qdo, None)),
        (
            "qbf solve --qdo --budget 7 f",
            solve(7, SolveForm::Qdo, Some("f")),
        ),
        (
            "qbf solve --budget 7 --qdo f",
            solve(7, SolveForm::Qdo, Some("f")),
        ),
        (
            "qbf solve --budget=7 f --qdo",
            solve(7, SolveForm::Qdo, Some("f")),
        ),
        (
            "qbf solve --qdo f --budget=7",
            solve(7, SolveForm::Qdo, Some("f")),
        ),
        (
            "qbf solve f --qdo --budget 7",
            solve(7, SolveForm::Qdo, Some("f")),
        ),
        (
            "qbf solve f --budget 7 --qdo",
            solve(7, SolveForm::Qdo, Some("f")),
        ),
        ("qbf solve --qcir", solve(GREATEST, SolveForm::Qcir, None)),
        (
            "qbf solve --budget=7 f --qcir",
            solve(7, SolveForm::Qcir, Some("f")),
        ),
        (
            "qbf solve --qcir --budget 7 f",
            solve(7, SolveForm::Qcir, Some("f")),
        ),
        ("qbf trace", trace(GREATEST, None)),
        ("qbf trace f --budget=7", trace(7, Some("f"))),
        ("qbf cert", cert(GREATEST, None)),
        ("qbf cert --budget 0 solve", cert(0, Some("solve"))),
        ("qbf script", script(GREATEST, None)),
        ("qbf script --budget 7 gen", script(7, Some("gen"))),
    ] {
        assert!(rt; comes_to(rt.alloc(), line, want)?, "{line}");
    }
    Ok(())
}

#[test]
fn forms_of_circuits_are_read(rt: HostRuntime) -> Result<(), Fail> {
    for (line, want) in [
        ("qbf cert --binary", cert_in_form(true, false, None)),
        ("qbf cert --trim f", cert_in_form(false, true, Some("f"))),
        ("qbf cert --binary --trim", cert_in_form(true, true, None)),
        (
            "qbf cert --trim f --binary",
            cert_in_form(true, true, Some("f")),
        ),
        (
            "qbf cert f --binary --restarts=0 --trim",
            cert_in_form(true, true, Some("f")),
        ),
        ("qbf cert --binary --binary", Err("multiple times")),
        ("qbf cert --trim f --trim", Err("multiple times")),
        (
            "qbf cert --binary=false",
            Err("unexpected value 'false' for '--binary'"),
        ),
        ("qbf cert --bin", Err("unexpected argument '--bin'")),
        (
            "qbf solve --binary",
            Err("unexpected argument '--binary' found"),
        ),
        (
            "qbf trace --trim",
            Err("unexpected argument '--trim' found"),
        ),
        (
            "qbf script f --binary",
            Err("unexpected argument '--binary' found"),
        ),
        (
            "qbf cert --help",
            Err("--binary        Writes the circuit in AIGER's binary form\n"),
        ),
        (
            "qbf cert -h",
            Err("--trim          Leaves out gates that no output is reached from\n"),
        ),
    ] {
        assert!(rt; comes_to(rt.alloc(), line, want)?, "{line}");
    }
    Ok(())
}

#[test]
fn checks_are_read(rt: HostRuntime) -> Result<(), Fail> {
    for (line, want) in [
        ("qbf check", check(GREATEST, false, None)),
        ("qbf check f", check(GREATEST, false, Some("f"))),
        ("qbf check --decide", check(GREATEST, true, None)),
        ("qbf check f --decide --budget 7", check(7, true, Some("f"))),
        (
            "qbf check --restarts=2 --budget=7 f",
            with_numbers(check(7, false, Some("f")), 2, KEPT),
        ),
        ("qbf check --decide --decide", Err("multiple times")),
        (
            "qbf check --decide=false",
            Err("unexpected value 'false' for '--decide'"),
        ),
        (
            "qbf check --trim",
            Err("unexpected argument '--trim' found"),
        ),
        (
            "qbf cert --decide",
            Err("unexpected argument '--decide' found"),
        ),
        (
            "qbf check -h",
            Err("--decide        Decides that formula too, with a budget of its own\n"),
        ),
    ] {
        assert!(rt; comes_to(rt.alloc(), line, want)?, "{line}");
    }
    Ok(())
}

// The command with this many restarts and rows to keep.
fn with_numbers(want: Want<'_>, restarts: u32, kept: u32) -> Want<'_> {
    match want {
        Ok(Command::Read { verb, input }) => Ok(Command::Read {
            verb,
            input: Input {
                restarts,
                kept,
                ..input
            },
        }),
        other => other,
    }
}

#[test]
fn restarts_are_read(rt: HostRuntime) -> Result<(), Fail> {
    for (line, restarts, want) in [
        (
            "qbf solve --restarts 0",
            0,
            solve(GREATEST, SolveForm::Plain, None),
        ),
        (
            "qbf solve --restarts 1000000",
            1_000_000,
            solve(GREATEST, SolveForm::Plain, None),
        ),
        (
            "qbf solve --restarts=2 f",
            2,
            solve(GREATEST, SolveForm::Plain, Some("f")),
        ),
        (
            "qbf solve f --restarts 2",
            2,
            solve(GREATEST, SolveForm::Plain, Some("f")),
        ),
        (
            "qbf solve --restarts 2 --budget 7 --qdo f",
            2,
            solve(7, SolveForm::Qdo, Some("f")),
        ),
        (
            "qbf solve --qdo --budget=7 f --restarts=2",
            2,
            solve(7, SolveForm::Qdo, Some("f")),
        ),
        ("qbf trace --restarts 2", 2, trace(GREATEST, None)),
        ("qbf cert f --restarts 2", 2, cert(GREATEST, Some("f"))),
        (
            "qbf script --restarts 2 --budget 7 gen",
            2,
            script(7, Some("gen")),
        ),
        ("qbf solve --restarts 1000001", 0, Err("is not in")),
        ("qbf script --restarts=1000001 f", 0, Err("is not in")),
        (
            "qbf cert --restarts 1 --restarts=2",
            0,
            Err("multiple times"),
        ),
        ("qbf solve --restarts", 0, Err("a value is required")),
        ("qbf solve --restarts 02", 0, Err("no needless zero")),
        ("qbf trace --restarts +1", 0, Err("a number has no sign")),
        ("qbf solve --restarts x", 0, Err("invalid value 'x'")),
        ("qbf solve --restarts=", 0, Err("invalid value ''")),
        (
            "qbf gen --restarts 1 0 3 1",
            0,
            Err("unexpected argument '--restarts'"),
        ),
        ("qbf --restarts 1", 0, Err("'--restarts'")),
    ] {
        let wanted = with_numbers(want, restarts, KEPT);
        assert!(rt; comes_to(rt.alloc(), line, wanted)?, "{line}");
    }
    Ok(())
}

#[test]
fn rows_to_keep_are_read(rt: HostRuntime) -> Result<(), Fail> {
    for (line, kept, want) in [
        (
            "qbf solve --keep 16",
            16,
            solve(GREATEST, SolveForm::Plain, None),
        ),
        (
            "qbf solve --keep=16777216 f",
            16_777_216,
            solve(GREATEST, SolveForm::Plain, Some("f")),
        ),
        (
            "qbf solve --qdo --budget=7 f --keep 20",
            20,
            solve(7, SolveForm::Qdo, Some("f")),
        ),
        ("qbf trace --keep 20", 20, trace(GREATEST, None)),
        ("qbf cert f --keep 20", 20, cert(GREATEST, Some("f"))),
        (
            "qbf script --keep=20 --budget 7 gen",
            20,
            script(7, Some("gen")),
        ),
        ("qbf solve --keep 15", KEPT, Err("is not in")),
        ("qbf trace --keep=0", KEPT, Err("is not in")),
        ("qbf check --keep 16777217", KEPT, Err("is not in")),
        ("qbf cert --keep 20 --keep=21", KEPT, Err("multiple times")),
        ("qbf solve --keep", KEPT, Err("a value is required")),
        ("qbf solve --keep 020", KEPT, Err("no needless zero")),
        ("qbf script --keep +20", KEPT, Err("a number has no sign")),
        ("qbf solve --keep x", KEPT, Err("invalid value 'x'")),
        (
            "qbf demo --keep 20 0 1",
            KEPT,
            Err("unexpected argument '--keep'"),
        ),
    ] {
        let wanted = with_numbers(want, 0, kept);
        assert!(rt; comes_to(rt.alloc(), line, wanted)?, "{line}");
    }
    Ok(())
}

#[test]
fn commands_of_numbers_are_read(rt: HostRuntime) -> Result<(), Fail> {
    let over = "is not in";
    for (line, want) in [
        ("qbf gen 0 3 1", generated(0, 3, 1)),
        (
            "qbf gen 4294967295 32000 1000000",
            generated(4_294_967_295, 32_000, 1_000_000),
        ),
        ("qbf gen 7 3 0", generated(7, 3, 0)),
        ("qbf gen 4294967296 3 1", Err(over)),
        ("qbf gen 0 2 1", Err(over)),
        ("qbf gen 0 32001 1", Err(over)),
        ("qbf gen 0 3 1000001", Err(over)),
        ("qbf gen 99999999999999999999 3 1", Err("too large")),
        ("qbf gen", Err("<CLAUSES>")),
        ("qbf gen 0 3", Err("<CLAUSES>")),
        ("qbf gen 0 3 1 1", Err("unexpected argument '1'")),
        ("qbf gen +1 3 1", Err("a number has no sign")),
        ("qbf gen 0 03 1", Err("no needless zero")),
        ("qbf gen -1 3 1", Err("unexpected argument '-1'")),
        ("qbf gen 0 3 x", Err("invalid value 'x'")),
        ("qbf gen 0 3 ", Err("invalid value ''")),
        ("qbf gen -- 0 3 1", Err("'--' is no word")),
        (
            "qbf gen --budget 1 0 3 1",
            Err("unexpected argument '--budget'"),
        ),
        ("qbf demo 0 1", demo(0, 1)),
        ("qbf demo 4294967295 10000", demo(4_294_967_295, 10_000)),
        ("qbf demo 0 0", Err(over)),
        ("qbf demo 0 10001", Err(over)),
        ("qbf demo 4294967296 1", Err(over)),
        ("qbf demo 00 1", Err("no needless zero")),
        ("qbf demo 0", Err("<COUNT>")),
        ("qbf demo 0 1 1", Err("unexpected argument '1'")),
        ("qbf demo 0 1 --qdo", Err("unexpected argument '--qdo'")),
    ] {
        assert!(rt; comes_to(rt.alloc(), line, want)?, "{line}");
    }
    Ok(())
}

#[test]
fn other_words_are_refused(rt: HostRuntime) -> Result<(), Fail> {
    for (line, part) in [
        ("qbf", "requires a subcommand"),
        ("qbf jump", "unrecognized subcommand 'jump'"),
        ("qbf scrip", "unrecognized subcommand 'scrip'"),
        ("qbf --budget 1", "'--budget'"),
        ("qbf --qdo solve", "'--qdo'"),
        ("qbf -- solve", "'solve'"),
        (
            "qbf --help",
            "  gen     Writes a generated formula in QDIMACS\n",
        ),
        ("qbf -h", "Usage: qbf <COMMAND>"),
        ("qbf help", "Usage: qbf <COMMAND>"),
        ("qbf solve --help", "--qdo "),
        ("qbf solve --help", "--qcir "),
        ("qbf cert --help", "--restarts <R>"),
        ("qbf check --help", "--keep <K>"),
        ("qbf trace --help", "Usage: qbf trace [OPTIONS] [NAME]"),
        ("qbf cert -h", "Usage: qbf cert [OPTIONS] [NAME]"),
        ("qbf script -h", "Usage: qbf script [OPTIONS] [NAME]"),
        ("qbf gen --help", "Usage: qbf gen <SEED> <VARS> <CLAUSES>"),
        ("qbf demo -h", "Usage: qbf demo <SEED> <COUNT>"),
        ("qbf --version", "unexpected argument '--version'"),
        ("qbf -V", "unexpected argument '-V'"),
        ("qbf solve --budget 18446744073709551616", "invalid value"),
        ("qbf solve --budget x", "invalid value 'x'"),
        ("qbf solve --budget ", "invalid value ''"),
        ("qbf solve --budget=", "invalid value ''"),
        ("qbf solve --budget 1\t", "invalid value '1\t'"),
        ("qbf solve --budget -1", "unexpected argument '-1'"),
        ("qbf trace --budget +5", "a number has no sign"),
        ("qbf solve --budget 007", "no needless zero"),
        ("qbf solve --budget --", "a value is required"),
        ("qbf solve --budget --qdo", "a value is required"),
        ("qbf solve --budget", "a value is required"),
        ("qbf solve --budget 1 --budget 2", "multiple times"),
        ("qbf script --budget=1 f --budget=2", "multiple times"),
        ("qbf solve --qdo --qdo", "multiple times"),
        ("qbf solve --qdo f --qdo", "multiple times"),
        ("qbf solve --qdo=true", "unexpected value 'true'"),
        ("qbf solve --qd", "unexpected argument '--qd'"),
        (
            "qbf solve --qdo --qcir",
            "'--qdo' and '--qcir' don't stand together",
        ),
        (
            "qbf solve --qcir f --qdo",
            "'--qdo' and '--qcir' don't stand together",
        ),
        ("qbf solve --qcir --qcir", "multiple times"),
        ("qbf trace --qcir", "unexpected argument '--qcir'"),
        ("qbf check --qcir", "unexpected argument '--qcir'"),
        ("qbf trace --qdo", "unexpected argument '--qdo'"),
        ("qbf cert f --qdo", "unexpected argument '--qdo'"),
        ("qbf script --qdo", "unexpected argument '--qdo'"),
        ("qbf solve a b", "unexpected argument 'b'"),
        ("qbf solve a --qdo b", "unexpected argument 'b'"),
        ("qbf cert a b", "unexpected argument 'b'"),
        ("qbf solve -x", "unexpected argument '-x'"),
        ("qbf solve -", "NAME begins with no '-'"),
        ("qbf script --", "'--' is no word"),
        ("qbf solve --qdo -- f", "'--' is no word"),
    ] {
        assert!(rt; comes_to(rt.alloc(), line, Err(part))?, "{line}");
    }
    assert!(rt; read_command(rt.alloc(), &[]).is_err());
    Ok(())
}
