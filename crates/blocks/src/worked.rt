//! Worked values of the definitions, each proved.
ghost use Rattle.blocks.specs.Worked.{WorkedBlocks, WorkedLines};

/// A text of which some bytes are passed on and others held back, and cases in which a byte is lost or told twice.
pub fn worked_blocks()
    ensures { WorkedBlocks }
{}

/// Lines and texts of lines with their bytes, and bytes that aren't theirs.
pub fn worked_lines()
    ensures { WorkedLines }
{}
