//! A formula decided, with a circuit that certifies its truth.
ghost use Rattle.std.specs.Prelude.{◌≡◌, ◌≤◌, length, IfOk};
ghost use Rattle.prefix.specs.Scopes.{all_variables};
ghost use Rattle.steps.specs.Counter.{step_limit};
ghost use Rattle.example_engine.specs.Answers.{IsRight};

use aig::Strategy;
use engine::{AskRefusal, Engine, SolveStop};
use memory::NoMemory;
use steps::Steps;

/// Whether a formula is true, and a circuit by which the side that wins does so.
#[derive(Debug, Drop)]
pub struct Answer {
    pub truth: bool,
    pub circuit: Strategy,
}

/// Decides the open formula under the assumptions, by a budget of steps that always suffices.
pub fn decide(engine: &mut Engine, budget: u64) -> Result<Answer, NoMemory>
    requires restarts { engine.old.restarts ≡ 0 }
    requires enough { step_limit 0 (length (all_variables engine.old.formula.scopes)) ≤ budget }
    ensures { IfOk result (IsRight engine.old.formula) }
{
    let verdict = match engine.solve(&mut Steps::new(budget)) {
        Ok(verdict) => verdict,
        Err(SolveStop::NoMemory) => return Err(NoMemory),
        Err(SolveStop::Spent(_)) => unreachable!(),
    };
    match engine.certificate() {
        Ok(circuit) => Ok(Answer {
            truth: verdict.truth,
            circuit,
        }),
        Err(AskRefusal::NoMemory) => Err(NoMemory),
        Err(_) => unreachable!(),
    }
}
