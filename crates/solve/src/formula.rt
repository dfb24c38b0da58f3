//! A formula, loaded and decided.
ghost use Rattle.std.specs.Prelude.{◌≡◌, ◌-◌, ◌^◌, IfOk, IfSome, OnErr};
ghost use Rattle.truth.specs.Formed.{IsFormed};
ghost use Rattle.engine.specs.Asks.{IsVerdictOf, PlaysFirst};
ghost use Rattle.solve.specs.Answers.{IsAnswerTo};
ghost use Rattle.solve.specs.Decisions.{IsDecided, IsRight, decision_of, stopped_at, truth_of};
ghost use Rattle.solve.specs.Feeding.{HoldsFormula};
ghost use Rattle.solve.specs.Holding.{Holds};
ghost use Rattle.solve.specs.Standing.{Standing};
ghost use Rattle.solve.specs.Terms.{Terms, terms_of};

use crate::answer::Answer;
use crate::decision::Decision;
use crate::feed::{feed, feed_whole};
use engine::{Engine, SolveStop, Verdict};
use memory::NoMemory;
use std::alloc::Global;
use steps::Steps;
use truth::{Formula, no_assumptions};

/// An engine that holds a formula.
pub fn engine_with(alloc: Global, f: &Formula) -> Result<Engine, NoMemory>
    requires { IsFormed f.now }
    ensures { IfOk result (HoldsFormula f.now.prefix f.now.clauses) }
{
    let mut engine = Engine::new(alloc)?;
    // What is formed is refused for want of memory alone.
    match feed(alloc, &mut engine, f) {
        Ok(()) => Ok(engine),
        Err(_) => Err(NoMemory),
    }
}

/// An engine that holds a formula whose clauses move in: those of a large one then stand once.
pub fn engine_of(alloc: Global, f: Formula) -> Result<Engine, NoMemory>
    requires { IsFormed f }
    ensures { IfOk result (HoldsFormula f.prefix f.clauses) }
{
    let mut engine = Engine::new(alloc)?;
    // What is formed is refused for want of memory alone.
    match feed_whole(&mut engine, f) {
        Ok(()) => Ok(engine),
        Err(_) => Err(NoMemory),
    }
}

/// Decides a formula by search with the greatest budget, of 2^64 - 1 steps. UNKNOWN comes only where this is below the
/// step limit of the formula's variables, so for 55 of them at least, and where propagation alone refutes the clauses
/// never, as 2 * n * (n + 3) isn't above it for n variables. It fails for want of memory alone.
pub fn decide_formula(alloc: Global, f: &Formula) -> Result<Answer, NoMemory>
    requires { IsFormed f.now }
    ensures { IfOk result (IsAnswerTo (terms_of (2 ^ 64 - 1) 0 512) f.now) }
{
    // For the proof: the truth under no assumptions is the truth.
    no_assumptions();
    let mut engine = engine_with(alloc, f)?;
    let decision = decide(&mut engine, u64::MAX)?;
    Ok(decision.answer())
}

/// Solves the open formula of an engine with a budget of that many steps. A verdict is the truth, whatever the budgets
/// of earlier solves were. Without memory the engine has no verdict.
pub fn decide(engine: &mut Engine, budget: u64) -> Result<Decision, NoMemory>
    ensures right { IfOk result (IsRight (truth_of engine.old.formula)) }
    ensures ok { (terms : Terms) (s : Standing) → terms.budget ≡ budget → Holds terms engine.old s
        → IfOk result (λ decision. IsDecided terms s decision engine.new) }
    ensures err { (terms : Terms) (s : Standing) → terms.budget ≡ budget → Holds terms engine.old s
        → OnErr result (Holds terms engine.new (stopped_at s)) }
{
    match engine.solve(&mut Steps::new(budget)) {
        Ok(verdict) => Ok(told(engine, verdict)),
        Err(SolveStop::Spent(stopped)) => Ok(Decision::Unknown(stopped)),
        Err(SolveStop::NoMemory) => Err(NoMemory),
    }
}

// The decision that a verdict is which the engine found.
fn told(engine: &Engine, verdict: Verdict) -> Decision
    ensures truth { result ≡ decision_of verdict.truth }
    ensures facts { IfSome engine.now.verdict (IsVerdictOf engine.now.formula) }
    ensures first { IfSome engine.now.verdict (PlaysFirst engine.now.formula) }
{
    // For the proof: what is kept of a verdict is right, and so are its values of the first scope.
    let _facts = engine.verdict();
    if verdict.truth {
        Decision::Sat
    } else {
        Decision::Unsat
    }
}
