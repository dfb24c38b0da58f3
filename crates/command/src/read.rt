//! The command that words ask for.
ghost use Rattle.std.specs.Prelude.{◌≡◌, ◌≢◌, ◌↔◌, ℕ, Bool, Option, IsTrue, option_map, List, Some, [], ◌∷◌, false, IfOk, IfErr, IfSome, IfNone, map, codes, string_bytes};
ghost use Rattle.std.specs.List.{list_any};
ghost use Rattle.std.specs.Str.{bytes_eq};
ghost use Rattle.clap.specs.Words.{found_of, kind_of, rows_of, subcommand_rows_of};
ghost use Rattle.command.specs.Account.{IsAccountOf, IsFoundAs, has_dashes};
ghost use Rattle.command.specs.Forms.{AreAlike, Asks, AsksInput, Explains, Flag, Text};
ghost use Rattle.command.specs.declared.command.Command.{Command as CommandSpec};

use super::command::Command;
use super::form::program;
use super::refused::Refused;
use super::values::command_found;
use clap::ArgMatches;
use clap::error::{Error, ErrorKind};
use std::alloc::Global;

/// The command that the words ask for, the program's name first. The name is lent from the words.
///
/// Refuses words that ask for no command, with a text for the user. Refused are also forms that `clap` takes: a `+` or
/// a needless zero in front of a number, `-` as a name, `--` in front of a name, and `--qdo` beside `--qcir`.
pub fn read_command<'a>(alloc: Global, words: &'a [String]) -> Result<Command<'a>, Refused>
    // the words ask for the command, and by the account of `clap` its values are theirs
    ensures asked { IfOk result (Asks (map string_bytes words.now)) }
    ensures account { IfOk result (IsAccountOf (map string_bytes words.now)) }

    // with a usage text the words ask for no command
    ensures refused { IfErr result (Explains (map string_bytes words.now)) }
{
    let mut program = program(alloc)?;
    match program.try_get_matches_from_mut(words) {
        Ok(matches) => match command_of(words, &matches) {
            Some(command) => Ok(command),
            None => Err(out_of_form(alloc, &mut program)),
        },
        Err(error) => Err(refused(alloc, &error)),
    }
}

// What an error of `clap` comes to.
fn refused(alloc: Global, error: &Error) -> Refused
    ensures { kind_of error.now ≡ ErrorKind.OutOfMemory → result ≡ Refused.NoMemory }
{
    if error.kind() == ErrorKind::OutOfMemory {
        return Refused::NoMemory;
    }
    match format!(in alloc; "{error}") {
        Ok(text) => Refused::Usage(text),
        Err(_) => Refused::NoMemory,
    }
}

// The refusal of words that `clap` takes and that are out of form.
fn out_of_form(alloc: Global, program: &mut clap::Command<'_>) -> Refused {
    let message =
        "a number has no sign and no needless zero, NAME begins with no '-', '--' is no word, and \
         '--qdo' and '--qcir' don't stand together";
    match program.error(ErrorKind::ValueValidation, message) {
        Ok(error) => refused(alloc, &error),
        Err(_) => Refused::NoMemory,
    }
}

// The command of the words' matches, if the words are in form.
fn command_of<'a>(words: &[String], matches: &ArgMatches<'a>) -> Option<Command<'a>>
    ensures some { IfSome result (λ c. (has_dashes (map string_bytes words.now) ≡ false)
        × IsFoundAs c (subcommand_rows_of matches.now)) }
    ensures none { IfNone result ((c : CommandSpec) → has_dashes (map string_bytes words.now) ≡ false
        → ¬ IsFoundAs c (subcommand_rows_of matches.now)) }
{
    if has_dashes(words) {
        return None;
    }
    let (word, found) = matches.subcommand()?;
    command_found(word, found)
}

// Whether a word behind the program's name is `--`.
fn has_dashes(words: &[String]) -> bool
    ensures { result ≡ has_dashes (map string_bytes words.now) }
{
    match words {
        [_, others @ ..] => contains_dashes(others),
        [] => false,
    }
}

// Whether a word is `--`.
fn contains_dashes(words: &[String]) -> bool
    ensures { result ≡ list_any (λ w. bytes_eq w (codes "--")) (map string_bytes words.now) }
{
    words.iter().any(|word| word.as_str() == "--")
}

/// A law: words ask for one command at most.
pub fn words_ask_for_one_command()
    // whatever the words of two commands that read an input are
    ensures values { (words : List Text) (v w : Text) (m n j k i l : ℕ) (q r : Flag → Bool)
        (g h : Option Text) → AsksInput v words m j i q g → AsksInput w words n k l r h
        → (v ≡ w) × (m ≡ n) × (j ≡ k) × (i ≡ l) × ((flag : Flag) → q flag ≡ r flag) × (g ≡ h) }
    ensures commands { (words : List Text) (c d : CommandSpec) → Asks words c → Asks words d → AreAlike c d }
{}
