//! The values that `clap` found for a command.
ghost use Rattle.std.specs.Prelude.{◌≡◌, ◌≢◌, ◌↔◌, ℕ, Option, IsTrue, option_map, Some, IfSome, IfNone, codes};
ghost use Rattle.clap.specs.Words.{found_of, rows_of};
ghost use Rattle.command.specs.Account.{AreDemo, AreFlagsOf, AreGen, AreInput, AreValues, HasNoHyphen, IsFormOf, IsNumberAt, is_set};
ghost use Rattle.command.specs.Forms.{Text, name_in, verb_word, word_of};
ghost use Rattle.command.specs.declared.command.Command.{Command as CommandSpec};
ghost use Rattle.command.specs.declared.command.SolveForm.{SolveForm as FormSpec};
ghost use Rattle.command.specs.declared.command.Verb.{Verb as VerbSpec};

use super::command::{Command, Input, SolveForm, Verb};
use super::form::{
    GREATEST_CLAUSES, GREATEST_COUNT, GREATEST_KEPT, GREATEST_RESTARTS, GREATEST_SEED,
    GREATEST_VARS, LEAST_COUNT, LEAST_KEPT, LEAST_VARS,
};
use super::number::{number_between, number_of};
use clap::ArgMatches;

// The command of this word with the values in its matches, if there is one and they are in form.
pub(crate) fn command_found<'a>(word: &str, found: &ArgMatches<'a>) -> Option<Command<'a>>
    ensures some { IfSome result (λ c. (word_of c ≡ word.now) × AreValues (rows_of (found_of found.now)) c) }
    ensures none { IfNone result ((c : CommandSpec) → word_of c ≡ word.now
        → ¬ AreValues (rows_of (found_of found.now)) c) }
{
    match word {
        "gen" => generator(found),
        "demo" => demonstration(found),
        _ => input_command(word, found),
    }
}

// The command of this word that reads an input, if there is one and its values are in form.
fn input_command<'a>(word: &str, found: &ArgMatches<'a>) -> Option<Command<'a>>
    ensures some { IfSome result (λ c. (word_of c ≡ word.now) × AreValues (rows_of (found_of found.now)) c) }
    ensures none { word.now ≢ codes "gen" → word.now ≢ codes "demo" → IfNone result ((c : CommandSpec)
        → word_of c ≡ word.now → ¬ AreValues (rows_of (found_of found.now)) c) }
{
    let input = input_of(found)?;
    let verb = verb_of(word, found)?;
    Some(Command::Read { verb, input })
}

// What the command of this word does with its input, if there is one and its flags are in form.
fn verb_of(word: &str, found: &ArgMatches<'_>) -> Option<Verb>
    ensures some { IfSome result (λ v. (verb_word v ≡ word.now) × AreFlagsOf (rows_of (found_of found.now)) v) }
    ensures none { IfNone result ((v : VerbSpec) → verb_word v ≡ word.now
        → ¬ AreFlagsOf (rows_of (found_of found.now)) v) }
{
    match word {
        "solve" => Some(Verb::Solve {
            form: form_of(found)?,
        }),
        "trace" => Some(Verb::Trace),
        "cert" => Some(Verb::Cert {
            binary: is_set(found, "binary"),
            trim: is_set(found, "trim"),
        }),
        "check" => Some(Verb::Check {
            decide: is_set(found, "decide"),
        }),
        "script" => Some(Verb::Script),
        _ => None,
    }
}

// The form of `solve` that its flags ask for, unless both are given.
fn form_of(found: &ArgMatches<'_>) -> Option<SolveForm>
    ensures some { IfSome result (IsFormOf (rows_of (found_of found.now))) }
    ensures none { IfNone result ((form : FormSpec) → ¬ IsFormOf (rows_of (found_of found.now)) form) }
{
    match (is_set(found, "qdo"), is_set(found, "qcir")) {
        (false, false) => Some(SolveForm::Plain),
        (true, false) => Some(SolveForm::Qdo),
        (false, true) => Some(SolveForm::Qcir),
        (true, true) => None,
    }
}

// Whether the flag of this name is given.
fn is_set(found: &ArgMatches<'_>, name: &str) -> bool
    ensures { result ≡ is_set name.now (rows_of (found_of found.now)) }
{
    match found.get_str(name) {
        Some(text) => text == "true",
        None => false,
    }
}

// The input in the matches of a command, if its values are in form.
fn input_of<'a>(found: &ArgMatches<'a>) -> Option<Input<'a>>
    ensures some { IfSome result (λ i. AreInput (rows_of (found_of found.now)) i.budget i.restarts i.kept (name_in i)) }
    ensures none { IfNone result ((n k l : ℕ) (g : Option Text) → ¬ AreInput (rows_of (found_of found.now)) n k l g) }
{
    let budget = number_of(found.get_str("budget")?)?;
    let restarts = number_at(found, "restarts", 0, GREATEST_RESTARTS)?;
    let kept = number_at(found, "keep", LEAST_KEPT, GREATEST_KEPT)?;
    let name = found.get_str("name");
    if !has_no_hyphen(name) {
        return None;
    }
    Some(Input {
        budget,
        restarts,
        kept,
        name,
    })
}

// Whether a name, if there is one, doesn't begin with `-`.
fn has_no_hyphen(name: Option<&str>) -> bool
    ensures { IsTrue result ↔ HasNoHyphen (option_map (λ s. s.now) name.entry) }
{
    match name {
        Some(word) => word.as_bytes().first() != Some(&b'-'),
        None => true,
    }
}

// The command `gen` of its numbers, if they are in form.
fn generator<'a>(found: &ArgMatches<'a>) -> Option<Command<'a>>
    ensures some { IfSome result (λ c. (word_of c ≡ codes "gen") × AreValues (rows_of (found_of found.now)) c) }
    ensures none { IfNone result ((s v k : ℕ) → ¬ AreGen (rows_of (found_of found.now)) s v k) }
{
    let seed = number_at(found, "SEED", 0, GREATEST_SEED)?;
    let vars = number_at(found, "VARS", LEAST_VARS, GREATEST_VARS)?;
    let clauses = number_at(found, "CLAUSES", 0, GREATEST_CLAUSES)?;
    Some(Command::Gen {
        seed,
        vars,
        clauses,
    })
}

// The command `demo` of its numbers, if they are in form.
fn demonstration<'a>(found: &ArgMatches<'a>) -> Option<Command<'a>>
    ensures some { IfSome result (λ c. (word_of c ≡ codes "demo") × AreValues (rows_of (found_of found.now)) c) }
    ensures none { IfNone result ((s k : ℕ) → ¬ AreDemo (rows_of (found_of found.now)) s k) }
{
    let seed = number_at(found, "SEED", 0, GREATEST_SEED)?;
    let count = number_at(found, "COUNT", LEAST_COUNT, GREATEST_COUNT)?;
    Some(Command::Demo { seed, count })
}

// The number of this name, from `least` to `most`, if it is in form.
fn number_at(found: &ArgMatches<'_>, id: &str, least: u32, most: u32) -> Option<u32>
    ensures some { IfSome result (IsNumberAt id.now least most (rows_of (found_of found.now))) }
    ensures none { IfNone result ((n : ℕ) → ¬ IsNumberAt id.now least most (rows_of (found_of found.now)) n) }
{
    number_between(found.get_str(id)?, least, most)
}
