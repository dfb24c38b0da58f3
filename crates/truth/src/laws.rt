//! Laws of the definitions.
ghost use Rattle.std.specs.Prelude.{◌≡◌, ◌+◌, ◌^◌, ◌≤◌, [], List, length};
ghost use Rattle.prefix.specs.Literal.{Literal};
ghost use Rattle.prefix.specs.Scopes.{Scope, all_variables};
ghost use Rattle.truth.specs.Truth.{truth, truth_under, plain_steps};

/// A law: the truth under no assumptions is the truth.
pub fn no_assumptions()
    ensures { (scopes : List Scope) (clauses : List (List Literal)) →
        truth_under [] scopes clauses ≡ truth scopes clauses }
{}

/// A law: over n variables the plain recursion tries at most 2^(n + 1) - 2 values.
pub fn plain_steps_are_bounded()
    ensures { (scopes : List Scope) (clauses : List (List Literal))
        → plain_steps scopes clauses + 2 ≤ 2 ^ (length (all_variables scopes) + 1) }
{}
