//! Texts of check formulas, and their truth by the plain decider.
use crate::conjunctions::{check_assumed_input, check_assumed_output};
use crate::games::{Rule, check_nothing, check_rule};
use ports::MemorySink;
use prefix::Quant;
use qdimacs_out::write_formula;
use std::alloc::Global;
use std::test::Fail;
use steps::Steps;
use truth::{Formula, decide_plain};

const OPPOSITE: &str = "p cnf 3 5\ne 1 2 3 0\n-1 -2 0\n1 -2 0\n1 -3 0\n-1 -3 0\n2 3 0\n";

const FALSE: &str = "p cnf 3 4\ne 1 2 3 0\n-1 -2 0\n1 -3 0\n-3 0\n2 3 0\n";

const TRUE: &str = "p cnf 3 4\ne 1 2 3 0\n-1 -2 0\n-2 0\n1 -3 0\n2 3 0\n";

const ASSUMED_OUTPUT: &str = "p cnf 4 5\ne 1 2 3 4 0\n2 -3 0\n1 -3 0\n-1 -2 3 0\n-3 -4 0\n4 0\n";

const ASSUMED_INPUT: &str =
    "p cnf 4 6\ne 1 2 3 4 0\n-1 0\n2 -3 0\n1 -3 0\n-1 -2 3 0\n-3 -4 0\n4 0\n";

// A circuit that plays a formula: by a rule; without inputs and outputs, for a winner; or with an assumed variable.
#[derive(Clone, Copy, Debug)]
enum Game {
    Rule(Rule),
    Nothing(Quant),
    AssumedOutput,
    AssumedInput,
}

// The check formula of a game.
fn formula_of(alloc: Global, game: Game) -> Result<Formula, Fail> {
    match game {
        Game::Rule(rule) => check_rule(alloc, rule),
        Game::Nothing(winner) => check_nothing(alloc, winner),
        Game::AssumedOutput => check_assumed_output(alloc),
        Game::AssumedInput => check_assumed_input(alloc),
    }
}

// Whether a formula is written so.
fn is_written(sink: &mut MemorySink, f: &Formula, text: &str) -> Result<bool, Fail> {
    write_formula(f, sink)?;
    Ok(sink.bytes() == text.as_bytes())
}

// The same in a new sink.
fn is_text(alloc: Global, f: &Formula, text: &str) -> Result<bool, Fail> {
    let mut sink = MemorySink::new(alloc, 128, 128, Vec::new(alloc))?;
    is_written(&mut sink, f, text)
}

// Whether the check formula of a game has this text.
fn has_text(alloc: Global, game: Game, text: &str) -> Result<bool, Fail> {
    let f = formula_of(alloc, game)?;
    is_text(alloc, &f, text)
}

// The same of each game. Fails with the first one that isn't so.
fn have_texts(alloc: Global, games: &[(Game, &str)]) -> Result<(), Fail> {
    for (game, text) in games {
        if !has_text(alloc, *game, text)? {
            return Err(*game)?;
        }
    }
    Ok(())
}

#[test]
fn circuits_have_these_formulas(rt: HostRuntime) -> Result<(), Fail> {
    let games = [
        (Game::Rule(Rule::Opposite), OPPOSITE),
        (Game::Rule(Rule::False), FALSE),
        (Game::Rule(Rule::True), TRUE),
    ];
    have_texts(rt.alloc(), &games)
}

#[test]
fn without_variables_there_is_no_scope(rt: HostRuntime) -> Result<(), Fail> {
    let games = [
        (Game::Nothing(Quant::Exists), "p cnf 0 1\n0\n"),
        (Game::Nothing(Quant::Forall), "p cnf 1 1\ne 1 0\n1 0\n"),
    ];
    have_texts(rt.alloc(), &games)
}

#[test]
fn assumed_outputs_have_selectors(rt: HostRuntime) -> Result<(), Fail> {
    have_texts(rt.alloc(), &[(Game::AssumedOutput, ASSUMED_OUTPUT)])
}

#[test]
fn assumed_inputs_have_their_values(rt: HostRuntime) -> Result<(), Fail> {
    have_texts(rt.alloc(), &[(Game::AssumedInput, ASSUMED_INPUT)])
}

// What the plain decider finds within a hundred steps.
fn is_true(alloc: Global, f: &Formula) -> Result<bool, Fail> {
    Ok(decide_plain(alloc, f, &mut Steps::new(100))?)
}

// Whether the circuit of a rule loses, by its check formula.
fn loses(alloc: Global, rule: Rule) -> Result<bool, Fail> {
    let f = check_rule(alloc, rule)?;
    is_true(alloc, &f)
}

#[test]
fn a_circuit_that_loses_has_values_that_show_it(rt: HostRuntime) -> Result<(), Fail> {
    for (rule, want) in [
        (Rule::Opposite, false),
        (Rule::False, true),
        (Rule::True, true),
    ] {
        assert_eq!(rt; loses(rt.alloc(), rule)?, want, "{rule:?}");
    }
    Ok(())
}
