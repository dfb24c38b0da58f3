//! Laws of texts that are written and read, each proved.
ghost use Rattle.qdimacs_out.specs.Theorems.{FewerRefused, ReadAgain, ReadWritable, TextBounded, WritableRead};

/// What is written is read back. Where a text is read as a formula, the formula's own text, if it isn't too long, is
/// read as the same formula, unless a tautology was left out, so that it has fewer clauses than it declares: then its
/// text is refused at its end.
pub fn written_formulas_are_read()
    ensures again { ReadAgain }
    ensures fewer { FewerRefused }
{}

/// The form of a formula that is read, that this form is enough for its text to be read, and how long the text is.
pub fn read_formulas_are_writable()
    ensures read { ReadWritable }
    ensures written { WritableRead }
    ensures bounded { TextBounded }
{}
