//! What the last verdict is asked.
ghost use Rattle.std.specs.Prelude.{◌≡◌, ◌≤◌, ◌+◌, length, Bool, Some, IsOk, IfOk, IsTrue, IsOkUnless, MatchOption, IfSome, SomeIff};
ghost use Rattle.std.specs.Option.{option_map};
ghost use Rattle.prefix.specs.Scopes.{IsAscending, quantifier_at};
ghost use Rattle.prefix.specs.Sides.{is_of};
ghost use Rattle.truth.specs.Truth.{assumed_value};
ghost use Rattle.calculus.specs.Limits.{removal_bound, removals_of, weight_bound};
ghost use Rattle.calculus.specs.Rows.{variables_in};
ghost use Rattle.calculus.specs.Verdicts.{relevant_of};
ghost use Rattle.derive.specs.State.{IsLegalFor, has_rows, is_live, why_at};
ghost use Rattle.clean.specs.Turns.{reductions_in};
ghost use Rattle.frames.specs.State.{open_clauses};
ghost use Rattle.search.specs.Moves.{IsMatrix};
ghost use Rattle.step_core.specs.Cores.{IsNumbered, inferences_of, proof_at};
ghost use Rattle.search.specs.Counting.{size_of};
ghost use Rattle.search.specs.Finishes.{finishes_in};
ghost use Rattle.search.specs.Long.{long_in};
ghost use Rattle.aig.specs.Strategies.{IsStrategy};
ghost use Rattle.engine.specs.Asks.{Decides, IfAnswered, IsCertificateOf, IsVerdictOf, PlaysFirst, end_row_of, first_value, first_values, removed_value, values_of, verdict_of};
ghost use Rattle.engine.specs.Refusals.{ask_refusal, value_refusal, winner_of, is_outermost};

use crate::engine::Engine;
use crate::lookup::{assumed_value, literal_over};
use crate::refusal::AskRefusal;
use crate::variables::variable;
use crate::verdict::{Held, Verdict, winner_of};
use aig::Strategy;
use calculus::{
    end_rows_give_proofs, first_values_decide, gates_are_bounded, last_steps_decide, plays_exist,
    plays_look_back, proofs_decide, relevant_ones_decide, steps_have_cores,
};
use derive::{Derivation, Step, StepId, steps_are_listed};
use extract::extract;
use prefix::{Lit, Prefix, Var};
use step_core::{Core, core};

impl Engine {
    /// The last verdict, where no change came after it. It is the truth and has a proof; where the first scope is the
    /// winner's, the play that follows the proof has values of it that suffice. This takes no memory.
    pub fn verdict(&self) -> Option<Verdict>
        ensures value { result ≡ option_map verdict_of self.now.verdict }
        ensures facts { IfSome self.now.verdict (IsVerdictOf self.now.formula) }
        ensures first { IfSome self.now.verdict (PlaysFirst self.now.formula) }
    {
        plays_exist();
        first_values_decide();
        end_rows_give_proofs();
        proofs_decide();
        steps_are_listed();
        let _valid = self.frames.prefix();
        match &self.verdict {
            None => None,
            Some(held) => Some(held.verdict),
        }
    }

    /// The derivation that verdicts rest on, for inspection: its open clauses are the formula's, and the last verdict's
    /// proof is made of its steps. This takes no memory.
    ///
    /// Of its live steps at most `c + k * (min(N, limit(n)) + 1) + 1` are reductions and finishes: with c clauses
    /// accepted and k solves so far, however these ended; N, R and n the greatest budget, number of restarts and number
    /// of variables of these; and `limit(n) = (R + 1) * (8n + 8) * 2^(n + 1)`. A count that came to 2^64 - 1 stays
    /// there.
    pub fn derivation(&self) -> &Derivation
        ensures clauses { IsMatrix result.now (open_clauses self.now.formula) }
        ensures legal { IsLegalFor self.now.formula.scopes result.now }
        ensures proof { IfSome self.now.verdict (λ v. v.proof ≡ proof_at result.now v.assumptions v.end) }
        ensures few { reductions_in result.now + finishes_in result.now ≤ removal_bound self.now.counts.clauses
            self.now.counts.solves self.now.counts.budget self.now.counts.restarts self.now.counts.vars }
        ensures long { long_in result.now ≡ self.now.kept_long }
        ensures rows { IsTrue (has_rows result.now) }
    {
        self.search.derivation()
    }

    /// How many long learned rows are attached: rows with more than three literals that are neither an input clause nor
    /// the reduction of one. With a verdict these are at most as many as its solve might keep, one more, and one for
    /// each variable. After an accepted clause or row, a pop, a group that was activated or deactivated, or want of
    /// memory in one of these, none may be attached until the next solve. This takes no memory and constant time.
    pub fn kept_long(&self) -> usize
        ensures value { result ≡ self.now.kept_long }
        ensures few { IfSome self.now.verdict (λ v. result ≤ v.kept + 1 + size_of self.now.formula.scopes) }
    {
        self.search.kept_long()
    }

    /// The assumptions of the last verdict that matter, ascending by variable: those over variables of the last row of
    /// its proof. They alone give the same verdict. This takes no memory and constant time.
    pub fn relevant(&self) -> Result<&[Lit], AskRefusal>
        ensures refused { MatchOption (ask_refusal self.now) (IsOk result) (λ e. result ≡ Err e) }
        ensures value { IfAnswered self.now.verdict result (λ v list. list.now ≡ relevant_of v.assumptions v.row) }
        ensures decides { IfAnswered self.now.verdict result (λ v list. Decides self.now.formula v list.now) }
        ensures verdict { IfSome self.now.verdict (IsVerdictOf self.now.formula) }
    {
        relevant_ones_decide();
        let _valid = self.prefix();
        let _facts = self.verdict();
        match &self.verdict {
            None => Err(AskRefusal::NoVerdict),
            Some(held) => Ok(held.relevant.lits()),
        }
    }

    /// The literal of a variable of the first scope that the last verdict's proof plays, where that scope is the
    /// winner's: its assumed value, or else the one that makes the literal bad which the finish removes, or else false.
    /// With all values of the first scope assumed, the formula has the same truth.
    ///
    /// Refused, in this order, with NoVerdict, with NotOutermost where the variable isn't in the first scope, and with
    /// NotWinner where that scope isn't the winner's. This takes no memory, and time for two binary searches.
    pub fn value(&self, var: u64) -> Result<Lit, AskRefusal>
        ensures refused { MatchOption (value_refusal self.now var) (IsOk result) (λ e. result ≡ Err e) }
        ensures value { IfAnswered self.now.verdict result
            (λ v lit. lit ≡ record { variable = var; positive = values_of self.now.formula v var }) }
        ensures assumed { IfAnswered self.now.verdict result
            (λ v lit. (b : Bool) → assumed_value v.assumptions var ≡ Some b → lit.positive ≡ b) }
        ensures decides { IfAnswered self.now.verdict result
            (λ v lit. Decides self.now.formula v (first_values self.now.formula v)) }
        ensures verdict { IfSome self.now.verdict (IsVerdictOf self.now.formula) }
    {
        end_rows_give_proofs();
        proofs_decide();
        steps_are_listed();
        steps_have_cores();
        plays_exist();
        last_steps_decide();
        first_values_decide();
        let _facts = self.verdict();
        let prefix = self.frames.prefix();
        match &self.verdict {
            None => Err(AskRefusal::NoVerdict),
            Some(held) => {
                let Some(v) = outermost(prefix, var) else {
                    return Err(AskRefusal::NotOutermost);
                };
                if !is_won(prefix, held.verdict.truth) {
                    return Err(AskRefusal::NotWinner);
                }
                Ok(Lit::new(v, first_value(self.search.derivation(), held, v)))
            }
        }
    }

    /// The steps of the last verdict's proof, numbered. Those that remove literals, reductions and a finish, are no
    /// more than `derivation` says. Refused, in this order, with NoVerdict and with NoMemory. It takes time in
    /// proportion to the ids from the oldest step of the proof to its end, and to the proof's literals.
    pub fn trace_core(&self) -> Result<Core, AskRefusal>
        ensures refused { MatchOption (ask_refusal self.now) (IsOkUnless result AskRefusal.NoMemory)
            (λ e. result ≡ Err e) }
        ensures winner { IfAnswered self.now.verdict result (λ v core. core.winner ≡ winner_of v.truth) }
        ensures list { IfAnswered self.now.verdict result (λ v core. inferences_of core.lines ≡ v.proof) }
        ensures numbered { IfOk result (λ core. IsNumbered core.lines) }
        ensures few { IfOk result (λ core. removals_of (inferences_of core.lines) ≤
            removal_bound self.now.counts.clauses self.now.counts.solves self.now.counts.budget
            self.now.counts.restarts self.now.counts.vars) }
        ensures verdict { IfSome self.now.verdict (IsVerdictOf self.now.formula) }
    {
        let _facts = self.verdict();
        match &self.verdict {
            None => Err(AskRefusal::NoVerdict),
            Some(held) => Ok(core(self.alloc, self.search.derivation(), held.verdict.end)?),
        }
    }

    /// The circuit of the last verdict's proof, by which the winner wins: a certificate of the verdict under its
    /// assumptions. It has at most `n * (n + 1)` gates, with the n of `derivation`, for each of the steps that this
    /// bounds. Refused, in this order, with NoVerdict and with NoMemory. It takes the time of `trace_core`, and of
    /// `extract::extract` for that core.
    pub fn certificate(&self) -> Result<Strategy, AskRefusal>
        ensures refused { MatchOption (ask_refusal self.now) (IsOkUnless result AskRefusal.NoMemory)
            (λ e. result ≡ Err e) }
        ensures strategy { IfOk result IsStrategy }
        ensures certifies { IfAnswered self.now.verdict result (IsCertificateOf self.now.formula) }
        ensures few { IfOk result (λ s. length s.aig.gates ≤ weight_bound self.now.counts.clauses
            self.now.counts.solves self.now.counts.budget self.now.counts.restarts self.now.counts.vars) }
        ensures verdict { IfSome self.now.verdict (IsVerdictOf self.now.formula) }
    {
        plays_exist();
        plays_look_back();
        gates_are_bounded();
        let _valid = self.prefix();
        let core = self.trace_core()?;
        match &self.verdict {
            None => Err(AskRefusal::NoVerdict),
            Some(held) => Ok(extract(
                self.alloc,
                &core,
                self.frames.prefix(),
                held.assumed.lits(),
            )?),
        }
    }
}

// The variable of a number, where it is in the first scope.
fn outermost(prefix: &Prefix, var: u64) -> Option<Var>
    ensures { SomeIff result (IsTrue (is_outermost prefix.now var)) var }
{
    let _valid = prefix.scopes();
    let Some(v) = variable(var) else {
        return None;
    };
    if prefix.level(v) == Some(1) {
        Some(v)
    } else {
        None
    }
}

// Whether the first scope is of the side that wins.
fn is_won(prefix: &Prefix, truth: bool) -> bool
    ensures { result ≡ is_of (quantifier_at prefix.now 1) (winner_of truth) }
{
    match prefix.scope_quant(1) {
        None => false,
        Some(quant) => quant == winner_of(truth),
    }
}

// The value of a variable of the first scope.
fn first_value(derivation: &Derivation, held: &Held, v: Var) -> bool
    requires ascending { IsAscending (variables_in held.now.assumed) }
    requires rows { IsTrue (has_rows derivation.now) }
    requires live { IsTrue (is_live derivation.now held.now.verdict.end) }
    requires row { IsAscending (variables_in (end_row_of derivation.now held.now.verdict.end)) }
    ensures { result ≡ first_value derivation.now held.now v }
{
    match assumed_value(held.assumed.lits(), v) {
        Some(value) => value,
        None => removed_value(derivation, held.verdict, v).unwrap_or(false),
    }
}

// The value that makes the literal bad which a finish removes, if there is one over the variable.
fn removed_value(derivation: &Derivation, verdict: Verdict, v: Var) -> Option<bool>
    requires rows { IsTrue (has_rows derivation.now) }
    requires live { IsTrue (is_live derivation.now verdict.end) }
    requires row { IsAscending (variables_in (end_row_of derivation.now verdict.end)) }
    ensures { result ≡ removed_value derivation.now verdict.truth (why_at derivation.now verdict.end) v }
{
    match derivation.step(verdict.end) {
        Step::Finished(a) => {
            let lit = literal_over(derivation.lits(a), v)?;
            Some(lit.is_positive() == verdict.truth)
        }
        _ => None,
    }
}
