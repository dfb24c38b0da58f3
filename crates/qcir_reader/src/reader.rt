//! What has been read.
ghost use Rattle.std.specs.Prelude.{◌≡◌, ◌<◌, ◌≤◌, ◌+◌, ◌^◌, ◌∷◌, ◌++◌, [], length, set, true, Some, None, IfOk, OnOk, IsOkUnless, nat_abs, List, ℕ, if◌then◌else◌};
ghost use Rattle.qdimacs.specs.Kept.{sets_of, put_last, last_differs};
ghost use Rattle.qcir_reader.specs.Grammar.{allows, sign_of as sign_of_word};
ghost use Rattle.qcir_reader.specs.Rules.{Front, first_of, variable_rules, output_rules, name_rules, input_rules, is_no_name, is_no_variable, literal_of as literal_of_number, is_unsupported as is_unsupported_word};
ghost use Rattle.qcir_reader.specs.Run.{nothing, with_gate, with_input, with_name, with_variable};
ghost use Rattle.qcir_reader.specs.Answers.{Goes, Is, IsSmall};
ghost use Rattle.qcir_reader.specs.Kept.{Checks, input_rules_kept, name_rules_kept, output_rules_kept, variable_rules_kept};
ghost use Rattle.qcir_reader.specs.Represents.{Closing, Keeps, Notes, Represents, Steps, Stood};

use crate::refusal::{
    BAD_NAME, BAD_STATEMENT, NAME_TWICE, QcirRefusal, UNKNOWN, UNSUPPORTED, beyond, refused,
};
use crate::sign::{Place, Sign, Stage, sign_of};
use lexer::Token;
use prefix::{Lit, LitList, Prefix, Quant, Var};
use qcir::{Circuit, Gate, GateKind, GateList};
use qdimacs::Sets;
use reading::Quantity;
use std::alloc::{AllocError, Global};

// The greatest number of clauses.
const MAX_CLAUSES: usize = 16_777_216;

// How many numbers may be marked.
const NAMES: usize = 1_048_577;

// What has been read: how far; the scopes so far, with a mark for each number that is known; the quantifier of the list
// that is read; the output; the whole gates, and how many clauses they make; and the gate that has not ended.
#[derive(Drop)]
pub(crate) struct Reader {
    pub(crate) stage: Stage,
    pub(crate) sets: Sets,
    pub(crate) quant: Quant,
    pub(crate) output: i64,
    pub(crate) output_line: u32,
    pub(crate) gates: Vec<Gate>,
    pub(crate) amount: usize,
    pub(crate) name: u32,
    pub(crate) kind: GateKind,
    pub(crate) inputs: Vec<Lit>,
}

impl Reader {
    // Nothing has been read.
    pub(crate) fn new(alloc: Global) -> Result<Self, AllocError>
        ensures front { IfOk result (λ r. Represents r nothing) }
        ensures stage { IfOk result (λ r. r.stage ≡ Stage.Between) }
    {
        let mut sets = Sets::new(alloc);
        sets.marks.resize(NAMES, false)?;
        Ok(Self {
            stage: Stage::Between,
            sets,
            quant: Quant::Exists,
            output: 0,
            output_line: 0,
            gates: Vec::new(alloc),
            amount: 1,
            name: 1,
            kind: GateKind::And,
            inputs: Vec::new(alloc),
        })
    }

    // Takes the next word, where no rule refuses it.
    pub(crate) fn take(&mut self, token: Token) -> Result<(), QcirRefusal>
        requires { Stood self.old }
        ensures { Steps result self.old self.new (sign_of_word token.word) token.line }
    {
        let line = token.line;
        let sign = sign_of(&token.word);
        if is_unsupported(self.stage, sign) {
            return Err(refused(UNSUPPORTED, line));
        }
        let Some(next) = self.stage.after(sign) else {
            return Err(refused(BAD_STATEMENT, line));
        };
        self.note(sign, line)?;
        self.stage = next;
        Ok(())
    }

    // Notes a word that the grammar allows, where no rule refuses it.
    fn note(&mut self, sign: Sign, line: u32) -> Result<(), QcirRefusal>
        requires { Stood self.old }
        ensures notes { Notes result self.old self.new sign line }
        ensures stage { self.new.stage ≡ self.old.stage }
    {
        match self.stage {
            Stage::Between => self.note_quantifier(sign),
            Stage::InSet(place) => self.note_in_set(place, sign, line),
            Stage::InOutput(place) => self.note_in_output(place, sign, line),
            Stage::Body => self.note_in_body(sign, line),
            Stage::InName => Ok(()),
            Stage::InKind => self.note_kind(sign),
            Stage::InGate(place) => self.note_in_gate(place, sign, line),
        }
    }

    // Notes a word between quantifier statements.
    fn note_quantifier(&mut self, sign: Sign) -> Result<(), QcirRefusal>
        requires { self.old.stage ≡ Stage.Between }
        ensures notes { (line : ℕ) → Notes result self.old self.new sign line }
        ensures stage { self.new.stage ≡ self.old.stage }
    {
        match sign {
            Sign::Quantifier(quant) => {
                self.quant = quant;
                Ok(())
            }
            _ => Ok(()),
        }
    }

    // Notes a word of a quantifier list.
    fn note_in_set(&mut self, place: Place, sign: Sign, line: u32) -> Result<(), QcirRefusal>
        requires stood { Stood self.old }
        requires stage { self.old.stage ≡ Stage.InSet place }
        ensures notes { Notes result self.old self.new sign line }
        ensures stage { self.new.stage ≡ self.old.stage }
    {
        match sign {
            Sign::Number(n) => self.note_variable(n, line),
            _ => Ok(()),
        }
    }

    // Notes a number of a quantifier list.
    fn note_variable(&mut self, n: i64, line: u32) -> Result<(), QcirRefusal>
        requires marked { length self.old.sets.marks.items ≡ 1048577 }
        ensures notes { (f : Front) → Keeps self.old f
            → Goes result (first_of (variable_rules f n line)) (Keeps self.new (with_variable f n)) }
        ensures stage { self.new.stage ≡ self.old.stage }
    {
        let v = self.check_variable(n, line)?;
        self.sets.push(self.quant, v)?;
        Ok(())
    }

    // The variable of a number in a quantifier list.
    fn check_variable(&self, n: i64, line: u32) -> Result<u32, QcirRefusal>
        requires marked { length self.now.sets.marks.items ≡ 1048577 }
        ensures { Checks result (first_of (variable_rules_kept self.now.sets.marks.items
            (sets_of self.now.sets.rows.items) self.now.quant n line)) (nat_abs n) }
    {
        let Some(v) = variable_of(n) else {
            return Err(refused(BAD_NAME, line));
        };
        if self.sets.marks[v as usize] {
            return Err(refused(NAME_TWICE, line));
        }
        if self.sets.begins_scope(self.quant) && self.sets.rows.len() >= Prefix::MAX_SCOPES {
            return Err(beyond(Quantity::Scopes, line));
        }
        Ok(v)
    }

    // Notes a word of the output statement.
    fn note_in_output(&mut self, place: Place, sign: Sign, line: u32) -> Result<(), QcirRefusal>
        requires stage { self.old.stage ≡ Stage.InOutput place }
        ensures notes { Notes result self.old self.new sign line }
        ensures stage { self.new.stage ≡ self.old.stage }
    {
        match sign {
            Sign::Number(n) => {
                if literal_of(n).is_none() {
                    return Err(refused(BAD_NAME, line));
                }
                self.output = n;
                self.output_line = line;
                Ok(())
            }
            _ => Ok(()),
        }
    }

    // Notes a word behind whole gates.
    fn note_in_body(&mut self, sign: Sign, line: u32) -> Result<(), QcirRefusal>
        requires stood { Stood self.old }
        requires stage { self.old.stage ≡ Stage.Body }
        ensures notes { Notes result self.old self.new sign line }
        ensures stage { self.new.stage ≡ self.old.stage }
    {
        match sign {
            Sign::Number(n) => self.note_name(n, line),
            _ => Ok(()),
        }
    }

    // Notes a number in front of `=`.
    fn note_name(&mut self, n: i64, line: u32) -> Result<(), QcirRefusal>
        requires marked { length self.old.sets.marks.items ≡ 1048577 }
        requires stage { self.old.stage ≡ Stage.Body }
        ensures notes { (f : Front) → Represents self.old f
            → Goes result (first_of (name_rules f n line)) (Keeps self.new (with_name f n)) }
        ensures stage { self.new.stage ≡ self.old.stage }
    {
        let v = self.check_name(n, line)?;
        self.name = v;
        self.inputs.clear();
        Ok(())
    }

    // The variable of a number in front of `=`.
    fn check_name(&self, n: i64, line: u32) -> Result<u32, QcirRefusal>
        requires marked { length self.now.sets.marks.items ≡ 1048577 }
        ensures { Checks result (first_of (name_rules_kept self.now.sets.marks.items
            (sets_of self.now.sets.rows.items) self.now.amount n line)) (nat_abs n) }
    {
        let Some(v) = variable_of(n) else {
            return Err(refused(BAD_NAME, line));
        };
        if self.sets.marks[v as usize] {
            return Err(refused(NAME_TWICE, line));
        }
        if self.sets.begins_scope(Quant::Exists) && self.sets.rows.len() >= Prefix::MAX_SCOPES {
            return Err(beyond(Quantity::Scopes, line));
        }
        if self.amount >= MAX_CLAUSES {
            return Err(beyond(Quantity::Clauses, line));
        }
        Ok(v)
    }

    // Notes what a gate makes of its inputs.
    fn note_kind(&mut self, sign: Sign) -> Result<(), QcirRefusal>
        requires { self.old.stage ≡ Stage.InKind }
        ensures notes { (line : ℕ) → Notes result self.old self.new sign line }
        ensures stage { self.new.stage ≡ self.old.stage }
    {
        match sign {
            Sign::Kind(kind) => {
                self.kind = kind;
                Ok(())
            }
            _ => Ok(()),
        }
    }

    // Notes a word of a gate's list.
    fn note_in_gate(&mut self, place: Place, sign: Sign, line: u32) -> Result<(), QcirRefusal>
        requires stood { Stood self.old }
        requires stage { self.old.stage ≡ Stage.InGate place }
        ensures notes { Notes result self.old self.new sign line }
        ensures stage { self.new.stage ≡ self.old.stage }
    {
        match sign {
            Sign::Number(n) => self.note_input(n, line),
            Sign::Closing => self.end_gate(),
            _ => Ok(()),
        }
    }

    // Notes an input of a gate.
    fn note_input(&mut self, n: i64, line: u32) -> Result<(), QcirRefusal>
        requires marked { length self.old.sets.marks.items ≡ 1048577 }
        requires few { self.old.amount + length self.old.inputs.items ≤ 2 ^ 24 }
        ensures notes { (f : Front) → Keeps self.old f
            → Goes result (first_of (input_rules f n line)) (Keeps self.new (with_input f n)) }
        ensures stage { self.new.stage ≡ self.old.stage }
    {
        let lit = self.check_input(n, line)?;
        self.inputs.push(lit)?;
        Ok(())
    }

    // The literal of an input of a gate.
    fn check_input(&self, n: i64, line: u32) -> Result<Lit, QcirRefusal>
        requires marked { length self.now.sets.marks.items ≡ 1048577 }
        requires few { self.now.amount + length self.now.inputs.items ≤ 2 ^ 24 }
        ensures { Checks result (first_of (input_rules_kept self.now.sets.marks.items self.now.amount
            (length self.now.inputs.items) n line)) (literal_of_number n) }
    {
        let Some(lit) = literal_of(n) else {
            return Err(refused(BAD_NAME, line));
        };
        if !self.sets.marks[n.unsigned_abs() as usize] {
            return Err(refused(UNKNOWN, line));
        }
        if self.amount + self.inputs.len() + 1 >= MAX_CLAUSES {
            return Err(beyond(Quantity::Clauses, line));
        }
        Ok(lit)
    }

    // Ends a gate.
    fn end_gate(&mut self) -> Result<(), QcirRefusal>
        requires marked { length self.old.sets.marks.items ≡ 1048577 }
        requires first { 1 ≤ self.old.name }
        requires last { self.old.name ≤ 1048576 }
        requires few { self.old.amount + length self.old.inputs.items ≤ 2 ^ 24 }
        ensures kept { OnOk result ((f : Front) → Keeps self.old f → Keeps self.new (with_gate f)) }
        ensures memory { IsOkUnless result QcirRefusal.NoMemory }
        ensures stage { self.new.stage ≡ self.old.stage }
    {
        let alloc = *self.gates.allocator();
        let inputs = std::mem::replace(&mut self.inputs, Vec::new(alloc));
        self.amount += inputs.len() + 1;
        self.sets.marks[self.name as usize] = true;
        if let Some(var) = Var::new(self.name) {
            let list = LitList::from_vec(inputs)?;
            self.gates.push(Gate {
                var,
                kind: self.kind,
                inputs: list,
            })?;
        }
        Ok(())
    }

    // The circuit, where the text ends on this line.
    pub(crate) fn close(&mut self, line: u32) -> Result<Circuit, QcirRefusal>
        requires { Stood self.old }
        ensures closing { Closing result self.old line }
        ensures small { IfOk result IsSmall }
    {
        match self.stage {
            Stage::Body => self.finish(),
            _ => Err(refused(BAD_STATEMENT, line)),
        }
    }

    // The circuit of whole statements.
    fn finish(&mut self) -> Result<Circuit, QcirRefusal>
        requires stood { Stood self.old }
        requires stage { self.old.stage ≡ Stage.Body }
        ensures closing { (line : ℕ) → Closing result self.old line }
        ensures small { IfOk result IsSmall }
    {
        let output = self.check_output()?;
        let Ok(prefix) = self.sets.prefix() else {
            return Err(QcirRefusal::NoMemory);
        };
        let _scopes = prefix.scopes();
        let alloc = *self.gates.allocator();
        let gates = std::mem::replace(&mut self.gates, Vec::new(alloc));
        Ok(Circuit {
            prefix,
            gates: GateList::from_vec(gates),
            output,
        })
    }

    // The literal of the output.
    fn check_output(&self) -> Result<Lit, QcirRefusal>
        requires marked { length self.now.sets.marks.items ≡ 1048577 }
        ensures { Checks result (first_of (output_rules_kept self.now.sets.marks.items self.now.output
            self.now.output_line)) (literal_of_number self.now.output) }
    {
        let n = self.output;
        let Some(lit) = literal_of(n) else {
            return Err(refused(UNKNOWN, self.output_line));
        };
        if !self.sets.marks[n.unsigned_abs() as usize] {
            return Err(refused(UNKNOWN, self.output_line));
        }
        Ok(lit)
    }
}

// The variable of a number, which is one from 1 to 1,048,576.
fn variable_of(n: i64) -> Option<u32>
    ensures { result ≡ (if is_no_variable n then None else Some (nat_abs n)) }
{
    if n < 1 || n > i64::from(Var::MAX) {
        return None;
    }
    Some(n as u32)
}

// The literal of a number, whose magnitude is one from 1 to 1,048,576.
fn literal_of(n: i64) -> Option<Lit>
    ensures { result ≡ (if is_no_name n then None else Some (literal_of_number n)) }
{
    let magnitude = n.unsigned_abs();
    if magnitude > u64::from(Var::MAX) {
        return None;
    }
    match Var::new(magnitude as u32) {
        Some(v) => Some(Lit::new(v, n > 0)),
        None => None,
    }
}

// Whether the word is one of the format that is left out here.
fn is_unsupported(stage: Stage, sign: Sign) -> bool
    ensures { result ≡ is_unsupported_word stage sign }
{
    match sign {
        Sign::LeftOut => true,
        Sign::Quantifier(_) => matches!(stage, Stage::InKind),
        _ => false,
    }
}
