//! Laws of texts, bytes and circuits, each proved.
ghost use Rattle.aiger_out.specs.Theorems.{OneCircuit, OneCircuitOfBoth, OneCircuitOfBytes, OneFormOfBytes, OneText};

/// A text denotes at most one circuit: two strategies whose text it is agree in names, outputs, winner and gates, but
/// for the order of a gate's two edges, and each edge has the same values in both.
pub fn texts_denote_one_circuit()
    ensures { OneCircuit }
{}

/// The circuit of a strategy has at most one text.
pub fn circuits_have_one_text()
    ensures { OneText }
{}

/// Bytes of the binary form denote at most one circuit, in the same sense.
pub fn bytes_denote_one_circuit()
    ensures { OneCircuitOfBytes }
{}

/// The circuit of a strategy has at most one form of bytes.
pub fn circuits_have_one_form_of_bytes()
    ensures { OneFormOfBytes }
{}

/// The text and the bytes of one strategy denote the same circuit: what a reader gets of one, and what a reader gets of
/// the other, agree in the same sense.
pub fn text_and_bytes_denote_one_circuit()
    ensures { OneCircuitOfBoth }
{}
