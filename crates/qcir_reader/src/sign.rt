//! What the words of the format are, and what the grammar allows.
ghost use Rattle.std.specs.Prelude.{◌≡◌};
ghost use Rattle.qcir_reader.specs.Grammar.{allows, is_left_out as is_left_out_text, mark_sign, sign_of as sign_of_word, statement_sign, text_sign};
ghost use Rattle.qcir_reader.specs.declared.sign.Stage.TheVariants.{Between, InGate, InOutput, InSet};

use lexer::Word;
use prefix::Quant;
use qcir::GateKind;

/// Where a list of numbers stands: before its bracket, behind it, behind a number, or behind a comma.
#[derive(Clone, Copy)]
pub enum Place {
    Before,
    Opened,
    Behind,
    Continued,
}

/// How far a text has been read: between quantifier statements, in the list of one, in the output statement, behind
/// whole gates, behind the name of a gate, behind its `=`, or in its list.
#[derive(Clone, Copy)]
pub enum Stage {
    Between,
    InSet(Place),
    InOutput(Place),
    Body,
    InName,
    InKind,
    InGate(Place),
}

/// What a word is to the grammar (QCIR-14, qcir-file): one of its words or marks, a number, a word of the format that
/// is left out here, or another.
#[derive(Clone, Copy)]
pub enum Sign {
    Quantifier(Quant),
    Output,
    Kind(GateKind),
    Equals,
    Opening,
    Closing,
    Comma,
    Number(i64),
    LeftOut,
    Stray,
}

// What a word is.
pub(crate) fn sign_of(word: &Word) -> Sign
    ensures { result ≡ sign_of_word word.now }
{
    match word {
        Word::Num(n) => Sign::Number(*n),
        Word::Text(text) => sign_of_text(text.as_slice()),
        Word::Other => Sign::Stray,
    }
}

// What a text word is.
fn sign_of_text(text: &[u8]) -> Sign
    ensures { result ≡ text_sign text.now }
{
    if let Some(mark) = mark_of(text) {
        return mark;
    }
    if let Some(statement) = statement_of(text) {
        return statement;
    }
    if is_left_out(text) {
        return Sign::LeftOut;
    }
    Sign::Stray
}

// The mark that a text word is.
fn mark_of(text: &[u8]) -> Option<Sign>
    ensures { result ≡ mark_sign text.now }
{
    match text {
        [b'('] => Some(Sign::Opening),
        [b')'] => Some(Sign::Closing),
        [b','] => Some(Sign::Comma),
        [b'='] => Some(Sign::Equals),
        _ => None,
    }
}

// What a statement begins with, or a gate makes of its inputs.
fn statement_of(text: &[u8]) -> Option<Sign>
    ensures { result ≡ statement_sign text.now }
{
    if text == b"exists".as_slice() {
        return Some(Sign::Quantifier(Quant::Exists));
    }
    if text == b"forall".as_slice() {
        return Some(Sign::Quantifier(Quant::Forall));
    }
    if text == b"output".as_slice() {
        return Some(Sign::Output);
    }
    if text == b"and".as_slice() {
        return Some(Sign::Kind(GateKind::And));
    }
    if text == b"or".as_slice() {
        return Some(Sign::Kind(GateKind::Or));
    }
    None
}

// Whether a text word is one of the format that is left out here.
fn is_left_out(text: &[u8]) -> bool
    ensures { result ≡ is_left_out_text text.now }
{
    text == b"xor".as_slice() || text == b"ite".as_slice() || text == b"free".as_slice()
}

impl Stage {
    // The stage behind one more word, where the grammar allows it.
    pub(crate) fn after(self, sign: Sign) -> Option<Stage>
        ensures { result ≡ allows self sign }
    {
        match self {
            Stage::Between => after_sets(sign),
            Stage::InSet(place) => after_in_set(place, sign),
            Stage::InOutput(place) => after_in_output(place, sign),
            Stage::Body => match sign {
                Sign::Number(_) => Some(Stage::InName),
                _ => None,
            },
            Stage::InName => match sign {
                Sign::Equals => Some(Stage::InKind),
                _ => None,
            },
            Stage::InKind => match sign {
                Sign::Kind(_) => Some(Stage::InGate(Place::Before)),
                _ => None,
            },
            Stage::InGate(place) => after_in_gate(place, sign),
        }
    }
}

// The stage behind a word between quantifier statements.
fn after_sets(sign: Sign) -> Option<Stage>
    ensures { result ≡ allows Between sign }
{
    match sign {
        Sign::Quantifier(_) => Some(Stage::InSet(Place::Before)),
        Sign::Output => Some(Stage::InOutput(Place::Before)),
        _ => None,
    }
}

// The stage behind a word of a quantifier list.
fn after_in_set(place: Place, sign: Sign) -> Option<Stage>
    ensures { result ≡ allows (InSet place) sign }
{
    match place {
        Place::Before => match sign {
            Sign::Opening => Some(Stage::InSet(Place::Opened)),
            _ => None,
        },
        Place::Opened => match sign {
            Sign::Number(_) => Some(Stage::InSet(Place::Behind)),
            Sign::Closing => Some(Stage::Between),
            _ => None,
        },
        Place::Behind => match sign {
            Sign::Comma => Some(Stage::InSet(Place::Continued)),
            Sign::Closing => Some(Stage::Between),
            _ => None,
        },
        Place::Continued => match sign {
            Sign::Number(_) => Some(Stage::InSet(Place::Behind)),
            _ => None,
        },
    }
}

// The stage behind a word of the output statement.
fn after_in_output(place: Place, sign: Sign) -> Option<Stage>
    ensures { result ≡ allows (InOutput place) sign }
{
    match place {
        Place::Before => match sign {
            Sign::Opening => Some(Stage::InOutput(Place::Opened)),
            _ => None,
        },
        Place::Opened => match sign {
            Sign::Number(_) => Some(Stage::InOutput(Place::Behind)),
            _ => None,
        },
        Place::Behind => match sign {
            Sign::Closing => Some(Stage::Body),
            _ => None,
        },
        Place::Continued => None,
    }
}

// The stage behind a word of a gate's list.
fn after_in_gate(place: Place, sign: Sign) -> Option<Stage>
    ensures { result ≡ allows (InGate place) sign }
{
    match place {
        Place::Before => match sign {
            Sign::Opening => Some(Stage::InGate(Place::Opened)),
            _ => None,
        },
        Place::Opened => match sign {
            Sign::Number(_) => Some(Stage::InGate(Place::Behind)),
            Sign::Closing => Some(Stage::Body),
            _ => None,
        },
        Place::Behind => match sign {
            Sign::Comma => Some(Stage::InGate(Place::Continued)),
            Sign::Closing => Some(Stage::Body),
            _ => None,
        },
        Place::Continued => match sign {
            Sign::Number(_) => Some(Stage::InGate(Place::Behind)),
            _ => None,
        },
    }
}
