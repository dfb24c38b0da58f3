//! Worked values of the definitions, each proved.
ghost use Rattle.qcir_reader.specs.Worked.{WorkedReadings};

/// How small texts are read.
pub fn worked_readings()
    ensures { WorkedReadings }
{}
