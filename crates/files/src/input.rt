//! The formula of the chosen input.
ghost use Rattle.std.specs.Prelude.{◌≡◌, List, ℕ, IfOk, IfErr, IfSome, IsErrOf, IsOk, OnOk, [], Some};
ghost use Rattle.ports.specs.Causes.{IsCounted};
ghost use Rattle.truth.specs.Formed.{IsFormed};
ghost use Rattle.qdimacs.specs.Rules.{parsed};
ghost use Rattle.files.specs.Endings.{IsUnread, circuit_ending_for};
ghost use Rattle.files.specs.Inputs.{IsTranslated, Says, format_of};
ghost use Rattle.files.specs.Inputs.Format.{as_circuit};
ghost use Rattle.files.specs.Solve.{IsEnding};
ghost use Rattle.solve.specs.Outside.{TakesInput};
ghost use Rattle.solve.specs.Terms.{Terms};

use crate::job::Job;
use ports::Desk;
use qcir::translate;
use qcir_reader::{QcirRefusal, read_qcir};
use qdimacs::read_formula;
use solve::Ending;
use std::alloc::Global;
use truth::Formula;

// The formula that is left of the chosen input, or that of the circuit that is left there, as the job has it.
pub(crate) fn read_input<D: Desk>(alloc: Global, job: Job, desk: &mut D) -> Result<Formula, Ending>
    ensures formed { IfOk result IsFormed }
    ensures formula { IfOk result (λ f. IfSome (D.left desk.old) (λ text. Says (format_of job) text (parsed f))) }
    ensures ending { IfErr result (λ e. IsUnread e
        × ((terms : Terms) → IfSome (D.left desk.old) (λ text. IsEnding (format_of job) terms text e))) }
    ensures desk { TakesInput D.content D.left D.faults D.steady D.flows desk.old desk.new result }
{
    match job {
        Job::Qcir => read_circuit(alloc, desk),
        _ => Ok(read_formula(alloc, desk)?),
    }
}

// The formula of the circuit that is left of the chosen input.
fn read_circuit<D: Desk>(alloc: Global, desk: &mut D) -> Result<Formula, Ending>
    ensures formed { IfOk result IsFormed }
    ensures formula { IfOk result (λ f. IfSome (D.left desk.old) (λ text. IsTranslated text f)) }
    ensures ending { IfErr result (λ e. IsUnread e
        × ((terms : Terms) → IfSome (D.left desk.old) (λ text. IsEnding as_circuit terms text e))) }
    ensures desk { TakesInput D.content D.left D.faults D.steady D.flows desk.old desk.new result }
{
    match read_qcir(alloc, desk) {
        Ok(circuit) => Ok(translate(alloc, &circuit)?),
        Err(refusal) => Err(ending_of(refusal)),
    }
}

// The ending where a text is no circuit, or can't be read.
fn ending_of(refusal: QcirRefusal) -> Ending
    ensures { result ≡ circuit_ending_for refusal }
{
    match refusal {
        QcirRefusal::Refused { number, line } => Ending::Refused { number, line },
        QcirRefusal::Limit { quantity, line } => Ending::Limit { quantity, line },
        QcirRefusal::ReadFault => Ending::ReadFault,
        QcirRefusal::NoMemory => Ending::NoMemory,
    }
}
