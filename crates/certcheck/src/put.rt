//! Puts clauses of literals that are given, and those of the gates.
ghost use Rattle.std.specs.Prelude.{◌≡◌, ℕ, ◌+◌, ◌*◌, ◌<◌, ◌≤◌, ◌^◌, ◌++◌, ◌∷◌, [], length, slice_index_or, OnOk, All};
ghost use Rattle.aig.specs.Circuits.{edge_number};
ghost use Rattle.aig.specs.declared.edge.And.{And};
ghost use Rattle.builder.specs.Rows.{flipped};
ghost use Rattle.certcheck.specs.Check.{number_when, units, conjunction, gate_clauses};
ghost use Rattle.builder.specs.Building.{Adds};

use aig::Aig;
use builder::RowBuilder;
use std::alloc::AllocError;

// The opposite literal.
pub(crate) fn flip(n: u32) -> u32
    requires { n < 2097154 }
    ensures value { result ≡ flipped n }
    ensures below { result < 2097154 }
{
    if n % 2 == 0 { n + 1 } else { n - 1 }
}

// A literal itself, or its opposite.
pub(crate) fn when(positive: bool, n: u32) -> u32
    requires { n < 2097154 }
    ensures value { result ≡ number_when positive n }
    ensures below { result < 2097154 }
{
    if positive { n } else { flip(n) }
}

// Puts a clause of these literals.
pub(crate) fn put_clause(
    build: &mut RowBuilder,
    buffer: &mut Vec<u32>,
    lits: &[u32],
) -> Result<(), AllocError>
    requires empty { buffer.old.items ≡ [] }
    requires below { All (λ n. n < 2097154) lits.now }
    ensures adds { OnOk result (Adds build.old build.new (lits.now ∷ [])) }
    ensures empty { OnOk result (buffer.new.items ≡ []) }
{
    buffer.extend_from_slice(lits)?;
    build.put(buffer)
}

// Puts a clause for each literal.
pub(crate) fn put_units(
    build: &mut RowBuilder,
    buffer: &mut Vec<u32>,
    ns: &[u32],
) -> Result<(), AllocError>
    requires empty { buffer.old.items ≡ [] }
    requires below { All (λ n. n < 2097154) ns.now }
    ensures adds { OnOk result (Adds build.old build.new (units ns.now)) }
    ensures empty { OnOk result (buffer.new.items ≡ []) }
{
    for i in 0..ns.len() {
        put_clause(build, buffer, &[ns[i]])?;
    }
    Ok(())
}

// Puts that one literal is the conjunction of two.
fn put_conjunction(
    build: &mut RowBuilder,
    buffer: &mut Vec<u32>,
    l: u32,
    a: u32,
    b: u32,
) -> Result<(), AllocError>
    requires empty { buffer.old.items ≡ [] }
    requires own { l < 2097154 }
    requires first { a < 2097154 }
    requires second { b < 2097154 }
    ensures adds { OnOk result (Adds build.old build.new (conjunction l a b)) }
    ensures empty { OnOk result (buffer.new.items ≡ []) }
{
    put_clause(build, buffer, &[flip(l), a])?;
    put_clause(build, buffer, &[flip(l), b])?;
    put_clause(build, buffer, &[l, flip(a), flip(b)])
}

// Puts the clauses of a gate.
fn put_gate(
    build: &mut RowBuilder,
    buffer: &mut Vec<u32>,
    aig: &Aig,
    place: usize,
) -> Result<(), AllocError>
    requires empty { buffer.old.items ≡ [] }
    requires place { place < length aig.now.gates }
    requires small { aig.now.inputs + length aig.now.gates ≤ 1048576 }
    ensures adds { OnOk result ((d : And) → Adds build.old build.new (conjunction (2 * (aig.now.inputs + place + 1))
        (edge_number aig.now.inputs (slice_index_or aig.now.gates place d).left)
        (edge_number aig.now.inputs (slice_index_or aig.now.gates place d).right))) }
    ensures empty { OnOk result (buffer.new.items ≡ []) }
{
    let inputs = aig.inputs();
    let (left, right) = aig.gate(place);
    let a = left.number(inputs) as u32;
    let b = right.number(inputs) as u32;
    let l = 2 * (inputs + place as u32 + 1);
    put_conjunction(build, buffer, l, a, b)
}

// Puts the clauses of all gates.
pub(crate) fn put_gates(
    build: &mut RowBuilder,
    buffer: &mut Vec<u32>,
    aig: &Aig,
) -> Result<(), AllocError>
    requires empty { buffer.old.items ≡ [] }
    requires small { aig.now.inputs + length aig.now.gates ≤ 1048576 }
    ensures adds { OnOk result (Adds build.old build.new (gate_clauses aig.now.inputs 0 aig.now.gates)) }
    ensures empty { OnOk result (buffer.new.items ≡ []) }
{
    for place in 0..aig.gates() {
        put_gate(build, buffer, aig, place)?;
    }
    Ok(())
}
