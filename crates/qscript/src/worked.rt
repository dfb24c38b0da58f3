//! Worked values of the definitions.
ghost use Rattle.qscript.specs.Worked.{WorkedHeaders, WorkedScripts};

/// Scripts with their commands, and malformed ones with their refusals; headers with the version that they name, and
/// refused ones.
pub fn worked_scripts()
    ensures scripts { WorkedScripts }
    ensures headers { WorkedHeaders }
{}
