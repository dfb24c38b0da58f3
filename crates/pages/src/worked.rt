//! Worked values of the definitions, each proved.
ghost use Rattle.pages.specs.Worked.{WorkedBits, WorkedPages};

/// Places in pages, and those that aren't blank.
pub fn worked_pages()
    ensures { WorkedPages }
{}

/// Bits in words.
pub fn worked_bits()
    ensures { WorkedBits }
{}
