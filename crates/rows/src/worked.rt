//! Worked values of the definitions, each proved.
ghost use Rattle.rows.specs.Worked.{WorkedSlots};

/// Slots of rows, by their three numbers.
pub fn worked_slots()
    ensures { WorkedSlots }
{}
