//! Laws of the reading relation.
ghost use Rattle.std.specs.Prelude.{◌≡◌, List, ℕ, Some};
ghost use Rattle.qcir_reader.specs.Rules.{Outcome};
ghost use Rattle.qcir_reader.specs.Reads.{Reads};
ghost use Rattle.qcir_reader.specs.Run.{outcome_of};

/// Each text is exactly one thing by the grammar, and that is what is computed word by word.
pub fn each_text_has_one_outcome()
    ensures some { (text : List ℕ) → (o : Outcome) × Reads text o }
    ensures one { (text : List ℕ) (o p : Outcome) → Reads text o → Reads text p → o ≡ p }
    ensures computed { (text : List ℕ) (o : Outcome) → outcome_of text ≡ Some o → Reads text o }
    ensures complete { (text : List ℕ) (o : Outcome) → Reads text o → outcome_of text ≡ Some o }
{}
