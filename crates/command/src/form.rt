//! The command line as `clap` is told of it.
ghost use Rattle.std.specs.Prelude.{◌≡◌, IfOk, false};
ghost use Rattle.clap.specs.Words.{app_of, rule_of};
ghost use Rattle.clap.specs.declared.builder.Command.TheViews.{out-Command as fields_of};
ghost use Rattle.command.specs.Account.{cert_app, check_app, demo_app, flag_rule, gen_app, input_app, number_rule, qbf_app, setting_rule, solve_app};
ghost use Rattle.command.specs.Forms.Setting.{the_budget, the_keep, the_restarts};

use clap::builder::ValueParser;
use clap::{Arg, ArgAction, Command, value_parser};
use std::alloc::{AllocError, Global};

pub(crate) const GREATEST_RESTARTS: u32 = 1_000_000;

pub(crate) const LEAST_KEPT: u32 = 16;

pub(crate) const GREATEST_KEPT: u32 = 16_777_216;

pub(crate) const GREATEST_SEED: u32 = u32::MAX;

pub(crate) const LEAST_VARS: u32 = 3;

pub(crate) const GREATEST_VARS: u32 = 32_000;

pub(crate) const GREATEST_CLAUSES: u32 = 1_000_000;

pub(crate) const LEAST_COUNT: u32 = 1;

pub(crate) const GREATEST_COUNT: u32 = 10_000;

// The program `qbf`.
pub(crate) fn program<'a>(alloc: Global) -> Result<Command<'a>, AllocError>
    ensures { IfOk result (λ c. app_of c ≡ qbf_app) }
{
    Command::new(alloc, "qbf")
        .about("Decides quantified Boolean formulas")
        .subcommand_required(true)
        .subcommand(solve(alloc)?)?
        .subcommand(command(
            alloc,
            "trace",
            "Writes the derivation of a formula's verdict",
        )?)?
        .subcommand(certifier(alloc)?)?
        .subcommand(checker(alloc)?)?
        .subcommand(command(alloc, "script", "Replies to a script of commands")?)?
        .subcommand(generator(alloc)?)?
        .subcommand(demonstration(alloc)?)
}

// The command that decides one formula.
fn solve<'a>(alloc: Global) -> Result<Command<'a>, AllocError>
    ensures app { IfOk result (λ c. app_of c ≡ solve_app) }
    ensures local { IfOk result (λ c. (fields_of c).has_globals ≡ false) }
{
    command(
        alloc,
        "solve",
        "Decides one formula in QDIMACS, or one circuit in QCIR",
    )?
    .arg(flag(
        alloc,
        "qdo",
        "Writes the verdict and the outermost values as QDIMACS output",
    ))?
    .arg(flag(
        alloc,
        "qcir",
        "Reads a quantified circuit in QCIR; not with --qdo",
    ))
}

// The command that writes a winning circuit.
fn certifier<'a>(alloc: Global) -> Result<Command<'a>, AllocError>
    ensures app { IfOk result (λ c. app_of c ≡ cert_app) }
    ensures local { IfOk result (λ c. (fields_of c).has_globals ≡ false) }
{
    command(
        alloc,
        "cert",
        "Writes the winning circuit of a formula's verdict",
    )?
    .arg(flag(alloc, "binary", "Writes the circuit in AIGER's binary form"))?
    .arg(flag(
        alloc,
        "trim",
        "Leaves out gates that no output is reached from",
    ))
}

// The command that writes the check formula of a winning circuit.
fn checker<'a>(alloc: Global) -> Result<Command<'a>, AllocError>
    ensures app { IfOk result (λ c. app_of c ≡ check_app) }
    ensures local { IfOk result (λ c. (fields_of c).has_globals ≡ false) }
{
    command(
        alloc,
        "check",
        "Writes the formula that says that the circuit of a formula's verdict loses",
    )?
    .arg(flag(
        alloc,
        "decide",
        "Decides that formula too, with a budget of its own",
    ))
}

// A command of this word that reads an input, of which help says this about it.
fn command<'a>(alloc: Global, word: &'a str, about: &'a str) -> Result<Command<'a>, AllocError>
    ensures app { IfOk result (λ c. app_of c ≡ input_app word.entry.now) }
    ensures local { IfOk result (λ c. (fields_of c).has_globals ≡ false) }
{
    let name = Arg::new(alloc, "name")
        .value_name("NAME")
        .help("The file to read; without it standard input is read");
    Command::new(alloc, word)
        .about(about)
        .arg(budget(alloc))?
        .arg(restarts(alloc))?
        .arg(keep(alloc))?
        .arg(name)
}

// The option `--budget N`.
fn budget<'a>(alloc: Global) -> Arg<'a>
    ensures rule { rule_of result ≡ setting_rule the_budget }
    ensures local { result.global ≡ false }
{
    Arg::new(alloc, "budget")
        .long("budget")
        .value_name("N")
        .help("The most steps that a search may take")
        .value_parser(value_parser!(u64))
        .default_value("18446744073709551615")
}

// The option `--restarts R`.
fn restarts<'a>(alloc: Global) -> Arg<'a>
    ensures rule { rule_of result ≡ setting_rule the_restarts }
    ensures local { result.global ≡ false }
{
    Arg::new(alloc, "restarts")
        .long("restarts")
        .value_name("R")
        .help("How often a search may begin anew, at most 1000000")
        .value_parser(ValueParser::unsigned(0, u64::from(GREATEST_RESTARTS)))
        .default_value("0")
}

// The option `--keep K`.
fn keep<'a>(alloc: Global) -> Arg<'a>
    ensures rule { rule_of result ≡ setting_rule the_keep }
    ensures local { result.global ≡ false }
{
    Arg::new(alloc, "keep")
        .long("keep")
        .value_name("K")
        .help("How many long learned rows a search may keep, from 16 to 16777216")
        .value_parser(ValueParser::unsigned(u64::from(LEAST_KEPT), u64::from(GREATEST_KEPT)))
        .default_value("512")
}

// An option without a number, of which help says this.
fn flag<'a>(alloc: Global, name: &'a str, help: &'a str) -> Arg<'a>
    ensures rule { rule_of result ≡ flag_rule name.entry.now }
    ensures local { result.global ≡ false }
{
    Arg::new(alloc, name)
        .long(name)
        .help(help)
        .action(ArgAction::SetTrue)
}

// The command that writes a generated formula.
fn generator<'a>(alloc: Global) -> Result<Command<'a>, AllocError>
    ensures app { IfOk result (λ c. app_of c ≡ gen_app) }
    ensures local { IfOk result (λ c. (fields_of c).has_globals ≡ false) }
{
    Command::new(alloc, "gen")
        .about("Writes a generated formula in QDIMACS")
        .arg(number(
            alloc,
            "SEED",
            "The seed of the formula, at most 4294967295",
            0,
            GREATEST_SEED,
        ))?
        .arg(number(
            alloc,
            "VARS",
            "How many variables it has, from 3 to 32000",
            LEAST_VARS,
            GREATEST_VARS,
        ))?
        .arg(number(
            alloc,
            "CLAUSES",
            "How many clauses it has, at most 1000000",
            0,
            GREATEST_CLAUSES,
        ))
}

// The command that solves generated formulas.
fn demonstration<'a>(alloc: Global) -> Result<Command<'a>, AllocError>
    ensures app { IfOk result (λ c. app_of c ≡ demo_app) }
    ensures local { IfOk result (λ c. (fields_of c).has_globals ≡ false) }
{
    Command::new(alloc, "demo")
        .about("Solves generated formulas and counts the verdicts")
        .arg(number(
            alloc,
            "SEED",
            "The seed of the first formula, at most 4294967295",
            0,
            GREATEST_SEED,
        ))?
        .arg(number(
            alloc,
            "COUNT",
            "How many formulas there are, from 1 to 10000",
            LEAST_COUNT,
            GREATEST_COUNT,
        ))
}

// A number that is wanted, from `least` to `most`.
fn number<'a>(alloc: Global, id: &'a str, help: &'a str, least: u32, most: u32) -> Arg<'a>
    ensures rule { rule_of result ≡ number_rule id.entry.now least most }
    ensures local { result.global ≡ false }
{
    Arg::new(alloc, id)
        .help(help)
        .value_parser(ValueParser::unsigned(u64::from(least), u64::from(most)))
        .required(true)
}
