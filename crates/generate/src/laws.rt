//! Laws of made formulas, each proved.
ghost use Rattle.std.specs.Prelude.{◌≡◌, ◌≤◌, ℕ, List, length};
ghost use Rattle.std.specs.List.{AllByRecursion, range_with_len};
ghost use Rattle.prefix.specs.Literal.{Literal};
ghost use Rattle.prefix.specs.Scopes.{IsPrefix, all_variables};
ghost use Rattle.truth.specs.Formed.{IsFormed};
ghost use Rattle.generate.specs.Made.{made, scopes_over};

/// A made formula is as one that was read is: its scopes are those of a prefix, which has each declared number as a
/// variable, and its clauses are over these, with three literals each.
pub fn made_formulas_are_formed()
    ensures formed { (seed v m : ℕ) → 3 ≤ v → v ≤ 32000 → m ≤ 1000000 → IsFormed (made seed v m) }
    ensures prefix { (v : ℕ) → 3 ≤ v → v ≤ 32000 → IsPrefix (scopes_over v) }
    ensures variables { (v : ℕ) → 3 ≤ v → all_variables (scopes_over v) ≡ range_with_len 1 v }
    ensures clauses { (seed v m : ℕ) → AllByRecursion (λ (c : List Literal). length c ≡ 3) (made seed v m).clauses }
{}
