//! A line of a script while its words come.
ghost use Rattle.std.specs.Prelude.{◌≡◌, List, IfOk, IfErr, OnErr, ◌⊎◌, false, if◌then◌else◌, Some, None, is_none, option_map};
ghost use Rattle.lexer.specs.declared.token.Word.TheVariants.{Text};
ghost use Rattle.reading.specs.Words.{is_text as is_text_word, quant_of as quant_of_word};
ghost use Rattle.qscript.specs.Lines.{has_groups as has_groups_of, is_header_line};
ghost use Rattle.qscript.specs.Run.{begun, among, entry, keyword, singles, openings, group_singles, group_openings, after, whole, is_header, misfit_of, misfit_first, natural, version_of as version_of_word};

use crate::command::{Command, NumList};
use crate::words::{BAD_ARGUMENT, BAD_COMMAND, NO_HEADER, refused};
use lexer::Word;
use prefix::Quant;
use reading::ReadRefusal;
use std::alloc::{AllocError, Global};
use versions::Version;

// A whole line: the header with the version that it names, or a command.
#[derive(Drop)]
pub(crate) enum Line {
    Header(Version),
    Command(Command),
}

// The words of a line so far: those of the header up to `p` and up to `qscript`; those of a command of which more words
// are to come; and a line behind which no more may come. A scope with its quantifier may end or have a number.
#[derive(Drop)]
pub(crate) enum Draft {
    Problem,
    Format,
    Scope,
    ScopeOf(Quant),
    Var,
    VarOf(u64),
    Clause(NumList),
    Assume,
    Value,
    Open,
    Activate,
    Deactivate,
    Whole(Line),
}

impl Draft {
    // The line that begins with this word: the header, or a command behind one that named a version.
    fn begin(alloc: Global, named: Option<Version>, word: &Word) -> Option<Self>
        ensures { result ≡ begun named word.now }
    {
        let Some(version) = named else {
            return problem(word);
        };
        match word {
            Word::Text(text) => command_begun(alloc, version, text.as_slice()),
            _ => None,
        }
    }

    // The line with one more word, where that may stand there. Only a clause takes memory.
    fn with(self, word: &Word) -> Result<Option<Self>, AllocError>
        ensures ok { IfOk result (λ next. next ≡ after self word.now) }
        ensures err { OnErr result (is_header self ≡ false) }
    {
        match self {
            Draft::Problem => Ok(format_behind(word)),
            Draft::Format => Ok(version_behind(word)),
            Draft::Scope => Ok(quant_behind(word)),
            Draft::ScopeOf(quant) => Ok(place_behind(quant, word)),
            Draft::Var => Ok(variable_behind(word)),
            Draft::VarOf(var) => Ok(scope_behind(var, word)),
            Draft::Clause(numbers) => number_behind(numbers, word),
            Draft::Assume => Ok(literal_behind(word)),
            Draft::Value => Ok(value_behind(word)),
            Draft::Open => Ok(opened_behind(word)),
            Draft::Activate => Ok(activated_behind(word)),
            Draft::Deactivate => Ok(deactivated_behind(word)),
            Draft::Whole(_) => Ok(None),
        }
    }

    // The whole line that its words are.
    fn close(self) -> Option<Line>
        ensures { result ≡ whole self }
    {
        match self {
            Draft::ScopeOf(quant) => Some(Line::Command(Command::Scope { quant, at: None })),
            Draft::Whole(line) => Some(line),
            _ => None,
        }
    }

    // Whether the line is the header.
    fn is_header(&self) -> bool
        ensures { result ≡ is_header self.now }
    {
        match self {
            Draft::Problem => true,
            Draft::Format => true,
            Draft::Whole(line) => line.is_header(),
            _ => false,
        }
    }
}

impl Draft {
    // The number by which the line is refused, if it is.
    fn misfit(&self) -> u8
        ensures { result ≡ misfit_of self.now }
    {
        if self.is_header() {
            NO_HEADER
        } else {
            BAD_ARGUMENT
        }
    }

    // The line that begins with this word, where one does.
    pub(crate) fn start(
        alloc: Global,
        named: Option<Version>,
        word: &Word,
        line: u32,
    ) -> Result<Self, ReadRefusal>
        ensures ok { IfOk result (λ d. begun named word.now ≡ Some d) }
        ensures header { IfOk result (λ d. is_header d ≡ is_none named) }
        ensures err { IfErr result (λ e. (begun named word.now ≡ None)
            × (e ≡ ReadRefusal.Refused (misfit_first named) line)) }
    {
        match Self::begin(alloc, named, word) {
            Some(draft) => Ok(draft),
            None if named.is_some() => Err(refused(BAD_COMMAND, line)),
            None => Err(refused(NO_HEADER, line)),
        }
    }

    // The line on which one more word stands.
    pub(crate) fn take(self, word: &Word, line: u32) -> Result<Self, ReadRefusal>
        ensures ok { IfOk result (λ more. after self word.now ≡ Some more) }
        ensures err { IfErr result (λ e. ((e ≡ ReadRefusal.NoMemory) × (is_header self ≡ false))
            ⊎ ((after self word.now ≡ None) × (e ≡ ReadRefusal.Refused (misfit_of self) line))) }
    {
        let misfit = self.misfit();
        match self.with(word)? {
            Some(more) => Ok(more),
            None => Err(refused(misfit, line)),
        }
    }

    // The line behind whose last word nothing stands on it.
    pub(crate) fn end(self, line: u32) -> Result<Line, ReadRefusal>
        ensures ok { IfOk result (λ l. whole self ≡ Some l) }
        ensures err { IfErr result (λ e. (whole self ≡ None) × (e ≡ ReadRefusal.Refused (misfit_of self) line)) }
    {
        let misfit = self.misfit();
        match self.close() {
            Some(whole) => Ok(whole),
            None => Err(refused(misfit, line)),
        }
    }
}

impl Line {
    // Whether it is the header.
    fn is_header(&self) -> bool
        ensures { result ≡ is_header_line self.now }
    {
        match self {
            Line::Header(_) => true,
            Line::Command(_) => false,
        }
    }
}

// Whether a word is this text.
fn is_text(word: &Word, text: &[u8]) -> bool
    ensures { result ≡ is_text_word text.now word.now }
{
    matches!(word, Word::Text(bytes) if bytes.as_slice() == text)
}

// The version that a word names.
fn version_of(word: &Word) -> Option<Version>
    ensures { result ≡ version_of_word word.now }
{
    match word {
        Word::Num(n) if *n == 1 => Some(Version::One),
        Word::Num(n) if *n == 2 => Some(Version::Two),
        Word::Num(n) if *n == 3 => Some(Version::Three),
        _ => None,
    }
}

// The number that a word is, where it isn't negative.
fn natural_of(word: &Word) -> Option<u64>
    ensures { result ≡ natural word.now }
{
    match word {
        Word::Num(n) if *n >= 0 => Some(*n as u64),
        _ => None,
    }
}

// The quantifier that a word names.
fn quant_of(text: &[u8]) -> Option<Quant>
    ensures { result ≡ quant_of_word (Text text.now) }
{
    match text {
        [b'e'] => Some(Quant::Exists),
        [b'a'] => Some(Quant::Forall),
        _ => None,
    }
}

// The header's first word.
fn problem(word: &Word) -> Option<Draft>
    ensures { result ≡ begun None word.now }
{
    if is_text(word, b"p".as_slice()) {
        Some(Draft::Problem)
    } else {
        None
    }
}

// The command of a version that this word begins.
fn command_begun(alloc: Global, version: Version, text: &[u8]) -> Option<Draft>
    ensures { result ≡ keyword version text.now }
{
    let of_any = any_begun(alloc, text);
    if of_any.is_some() {
        return of_any;
    }
    if has_groups(version) {
        group_begun(text)
    } else {
        None
    }
}

// Whether clause groups belong to a version.
fn has_groups(version: Version) -> bool
    ensures { result ≡ has_groups_of version }
{
    match version {
        Version::Three => true,
        Version::One | Version::Two => false,
    }
}

// The command of every version that this word begins.
fn any_begun(alloc: Global, text: &[u8]) -> Option<Draft>
    ensures { result ≡ among openings singles text.now }
{
    if text == b"scope".as_slice() {
        Some(Draft::Scope)
    } else if text == b"var".as_slice() {
        Some(Draft::Var)
    } else if text == b"clause".as_slice() {
        Some(Draft::Clause(NumList::new(alloc)))
    } else if text == b"assume".as_slice() {
        Some(Draft::Assume)
    } else if text == b"value".as_slice() {
        Some(Draft::Value)
    } else {
        let command = single_word(text)?;
        Some(Draft::Whole(Line::Command(command)))
    }
}

// The command of clause groups that this word begins.
fn group_begun(text: &[u8]) -> Option<Draft>
    ensures { result ≡ among group_openings group_singles text.now }
{
    if text == b"open".as_slice() {
        Some(Draft::Open)
    } else if text == b"activate".as_slice() {
        Some(Draft::Activate)
    } else if text == b"deactivate".as_slice() {
        Some(Draft::Deactivate)
    } else if text == b"close".as_slice() {
        Some(Draft::Whole(Line::Command(Command::CloseGroup)))
    } else if text == b"core".as_slice() {
        Some(Draft::Whole(Line::Command(Command::GroupCore)))
    } else {
        None
    }
}

// The command of every version that is this word alone.
fn single_word(text: &[u8]) -> Option<Command>
    ensures { result ≡ entry singles text.now }
{
    if text == b"push".as_slice() {
        Some(Command::Push)
    } else if text == b"pop".as_slice() {
        Some(Command::Pop)
    } else if text == b"solve".as_slice() {
        Some(Command::Solve)
    } else if text == b"relevant".as_slice() {
        Some(Command::Relevant)
    } else if text == b"trace".as_slice() {
        Some(Command::Trace)
    } else if text == b"cert".as_slice() {
        Some(Command::Cert)
    } else {
        None
    }
}

// The header's second word.
fn format_behind(word: &Word) -> Option<Draft>
    ensures { result ≡ after Draft.Problem word.now }
{
    if is_text(word, b"qscript".as_slice()) {
        Some(Draft::Format)
    } else {
        None
    }
}

// The header's last word.
fn version_behind(word: &Word) -> Option<Draft>
    ensures { result ≡ after Draft.Format word.now }
{
    let version = version_of(word)?;
    Some(Draft::Whole(Line::Header(version)))
}

// A scope's quantifier.
fn quant_behind(word: &Word) -> Option<Draft>
    ensures { result ≡ after Draft.Scope word.now }
{
    let Word::Text(text) = word else {
        return None;
    };
    let quant = quant_of(text.as_slice())?;
    Some(Draft::ScopeOf(quant))
}

// A scope's number.
fn place_behind(quant: Quant, word: &Word) -> Option<Draft>
    ensures { result ≡ after (Draft.ScopeOf quant) word.now }
{
    let at = natural_of(word)?;
    Some(Draft::Whole(Line::Command(Command::Scope {
        quant,
        at: Some(at),
    })))
}

// A variable that joins a scope.
fn variable_behind(word: &Word) -> Option<Draft>
    ensures { result ≡ after Draft.Var word.now }
{
    let var = natural_of(word)?;
    Some(Draft::VarOf(var))
}

// The scope that it joins.
fn scope_behind(var: u64, word: &Word) -> Option<Draft>
    ensures { result ≡ after (Draft.VarOf var) word.now }
{
    let scope = natural_of(word)?;
    Some(Draft::Whole(Line::Command(Command::Var { var, scope })))
}

// A clause's literal, or its 0.
fn number_behind(mut numbers: NumList, word: &Word) -> Result<Option<Draft>, AllocError>
    ensures { IfOk result (λ next. next ≡ after (Draft.Clause numbers) word.now) }
{
    let Word::Num(n) = word else {
        return Ok(None);
    };
    if *n == 0 {
        return Ok(Some(Draft::Whole(Line::Command(Command::Clause(numbers)))));
    }
    numbers.push(*n)?;
    Ok(Some(Draft::Clause(numbers)))
}

// An assumed literal.
fn literal_behind(word: &Word) -> Option<Draft>
    ensures { result ≡ after Draft.Assume word.now }
{
    match word {
        Word::Num(n) if *n != 0 => Some(Draft::Whole(Line::Command(Command::Assume(*n)))),
        _ => None,
    }
}

// A variable whose value is asked for.
fn value_behind(word: &Word) -> Option<Draft>
    ensures { result ≡ after Draft.Value word.now }
{
    let var = natural_of(word)?;
    Some(Draft::Whole(Line::Command(Command::Value(var))))
}

// A group that is opened.
fn opened_behind(word: &Word) -> Option<Draft>
    ensures { result ≡ after Draft.Open word.now }
{
    let group = natural_of(word)?;
    Some(Draft::Whole(Line::Command(Command::OpenGroup(group))))
}

// A group that joins the open formula.
fn activated_behind(word: &Word) -> Option<Draft>
    ensures { result ≡ after Draft.Activate word.now }
{
    let group = natural_of(word)?;
    Some(Draft::Whole(Line::Command(Command::Activate(group))))
}

// A group that leaves it.
fn deactivated_behind(word: &Word) -> Option<Draft>
    ensures { result ≡ after Draft.Deactivate word.now }
{
    let group = natural_of(word)?;
    Some(Draft::Whole(Line::Command(Command::Deactivate(group))))
}
