//! Resolution and clash.
ghost use Rattle.std.specs.Prelude.{◌≡◌, ◌+◌, [], ◌++◌, length, OnOk, OnErr, IsFalse};
ghost use Rattle.prefix.specs.Scopes.{IsAscending};
ghost use Rattle.calculus.specs.Rows.{variables_in, without, clashes as clash, resolve as resolvent};
ghost use Rattle.smallvec.specs.SmallVec.{HasRoomFor};

use super::Row;
use memory::NoMemory;
use prefix::{Lit, Var};

/// Whether a variable other than `pivot` stands with opposite signs in two ascending rows.
pub fn clashes(a: &[Lit], b: &[Lit], pivot: Var) -> bool
    requires a_ascends { IsAscending (variables_in a.now) }
    requires b_ascends { IsAscending (variables_in b.now) }
    ensures { result ≡ clash a.now b.now pivot }
{
    let mut i = 0;
    let mut j = 0;
    while i < a.len() && j < b.len() {
        let l = a[i];
        let m = b[j];
        if l.var() < m.var() {
            i += 1;
            continue;
        }
        if m.var() < l.var() {
            j += 1;
            continue;
        }
        if l.var() != pivot && l.is_positive() != m.is_positive() {
            return true;
        }
        i += 1;
        j += 1;
    }
    false
}

/// Makes `out` the resolvent of two rows on `pivot`: all literals of both but those over it, each once. It ascends
/// where both rows do and don't clash. After want of memory `out` is empty.
pub fn resolve(a: &[Lit], b: &[Lit], pivot: Var, out: &mut Row) -> Result<(), NoMemory>
    ensures ok { OnOk result (out.new.items ≡ resolvent a.now b.now pivot) }
    ensures ascending { OnOk result (IsAscending (variables_in a.now) → IsAscending (variables_in b.now) →
        IsFalse (clash a.now b.now pivot) → IsAscending (variables_in out.new.items)) }
    ensures err { OnErr result (out.new.items ≡ []) }
{
    out.clear();
    // Room for both rows, so that no push asks for memory.
    out.reserve(a.len().saturating_add(b.len()))?;
    push_resolvent(a, b, pivot, out);
    Ok(())
}

// Appends the resolvent of two rows, where there is room for both.
fn push_resolvent(a: &[Lit], b: &[Lit], pivot: Var, out: &mut Row)
    requires room { HasRoomFor out.old (length a.now + length b.now) }
    ensures { out.new.items ≡ out.old.items ++ resolvent a.now b.now pivot }
{
    let mut i = 0;
    let mut j = 0;
    while i < a.len() && j < b.len() {
        let l = a[i];
        let m = b[j];
        if l.var() == pivot {
            i += 1;
            continue;
        }
        if m.var() == pivot {
            j += 1;
            continue;
        }
        if l.var() < m.var() {
            out.push_reserved(l);
            i += 1;
            continue;
        }
        if l.var() == m.var() && l.is_positive() == m.is_positive() {
            out.push_reserved(l);
            i += 1;
            j += 1;
            continue;
        }
        out.push_reserved(m);
        j += 1;
    }
    push_without(&a[i..], pivot, out);
    push_without(&b[j..], pivot, out);
}

// Appends the literals over other variables, where there is room for all.
fn push_without(lits: &[Lit], pivot: Var, out: &mut Row)
    requires room { HasRoomFor out.old (length lits.now) }
    ensures items { out.new.items ≡ out.old.items ++ without pivot lits.now }
    ensures capacity { out.new.capacity ≡ out.old.capacity }
{
    for lit in lits {
        if lit.var() != pivot {
            out.push_reserved(*lit);
        }
    }
}
