//! Worked values of the definitions, each proved.
ghost use Rattle.files.specs.Worked.{WorkedChecks, WorkedJobs};
ghost use Rattle.files.specs.WorkedInputs.{WorkedInputs};
ghost use Rattle.files.specs.WorkedVerdicts.{WorkedCircuits, WorkedVerdicts};

/// What texts of formulas and circuits say, and answers to circuits.
pub fn worked_inputs()
    ensures { WorkedInputs }
{}

/// What jobs write for formulas, and what they leave where there is no answer.
pub fn worked_jobs()
    ensures { WorkedJobs }
{}

/// What comes of the checks of certificates, and what does not.
pub fn worked_checks()
    ensures { WorkedChecks }
{}

/// What is written of verdicts whose circuit has an output.
pub fn worked_verdicts()
    ensures { WorkedVerdicts }
{}

/// Circuits of verdicts, and their check formulas, within the limits and beyond them.
pub fn worked_circuits()
    ensures { WorkedCircuits }
{}
