//! What of a clause's row can be said without memory.
ghost use Rattle.std.specs.Prelude.{◌≡◌, ◌==◌, ◌<◌, length, nat_abs, pos, slice_index_or, take};
ghost use Rattle.std.specs.List.{AllByRecursion, list_any};
ghost use Rattle.clauses.specs.Clause.{has_literal as stands_in, is_tautology as is_taut, variables_of};
ghost use Rattle.clauses.specs.Codes.{IsInRange};

/// Whether a literal stands beside its negation. It compares each pair, so that it needs no memory.
pub fn is_tautology(numbers: &[i64]) -> bool
    requires { AllByRecursion IsInRange numbers.now }
    ensures { result ≡ is_taut numbers.now }
{
    for n in numbers {
        if has_literal(numbers, -*n) {
            return true;
        }
    }
    false
}

/// How many variables a clause has. It compares each pair, so that it needs no memory.
pub fn variables(numbers: &[i64]) -> usize
    ensures { result ≡ length (variables_of numbers.now) }
{
    let mut count = 0;
    for i in 0..numbers.len() {
        if is_repeated(numbers, i) {
            continue;
        }
        count += 1;
    }
    count
}

// Whether a number stands in a list.
fn has_literal(numbers: &[i64], n: i64) -> bool
    ensures { result ≡ stands_in n numbers.now }
{
    numbers.iter().any(|m| n == *m)
}

// Whether the variable of the literal at a place stands before it too.
fn is_repeated(numbers: &[i64], place: usize) -> bool
    requires { place < length numbers.now }
    ensures { result ≡ list_any (λ m. nat_abs m == nat_abs (slice_index_or numbers.now place (pos 0)))
        (take place numbers.now) }
{
    let v = numbers[place].unsigned_abs();
    for m in &numbers[..place] {
        if m.unsigned_abs() == v {
            return true;
        }
    }
    false
}
