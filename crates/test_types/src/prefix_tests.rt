//! Prefixes, their refusals, and the numbers of literals.
use crate::build::{literal, variable};
use prefix::{Clauses, Cubes, Lit, LitList, Prefix, PrefixRefusal, Quant};
use std::alloc::Global;
use std::test::Fail;

// Whether the variables of a scope have these numbers.
fn has_numbers(prefix: &Prefix, scope: usize, numbers: &[u32]) -> bool {
    if scope == 0 || prefix.scopes() < scope {
        return false;
    }
    let vars = prefix.vars_of(scope);
    for (v, n) in vars.iter().zip(numbers) {
        if v.number() != *n {
            return false;
        }
    }
    vars.len() == numbers.len()
}

// Whether the scopes have the variables 5, and 3 and 7.
fn are_scopes(prefix: &Prefix) -> bool {
    prefix.scopes() == 2
        && prefix.len() == 3
        && has_numbers(prefix, 1, &[5])
        && has_numbers(prefix, 2, &[3, 7])
}

// Existential variables 7 and 3, and then the universal 5 in a scope in front of them.
fn put_in_front(prefix: &mut Prefix) -> Result<(), PrefixRefusal> {
    prefix.add_scope(Quant::Exists, None)?;
    prefix.add_var(7, 1)?;
    prefix.add_var(3, 1)?;
    prefix.add_scope(Quant::Forall, Some(1))?;
    prefix.add_var(5, 1)
}

// Whether a variable is of this level and quantifier, and a pivot on that quantifier's side alone.
fn stands(prefix: &Prefix, number: u32, level: usize, quant: Quant) -> Result<bool, Fail> {
    let v = variable(number)?;
    let lit = Lit::new(v, false);
    Ok(
        prefix.level(v) == Some(level)
            && prefix.quant(v) == Some(quant)
            && prefix.depth(v) == level
            && v.index() == number.saturating_sub(1) as usize
            && prefix.is_pivot::<Clauses>(lit) == (quant == Quant::Exists)
            && prefix.is_pivot::<Cubes>(lit) == (quant == Quant::Forall),
    )
}

// Whether a variable of no scope comes behind all, and is no pivot.
fn is_absent(prefix: &Prefix, number: u32) -> Result<bool, Fail> {
    let v = variable(number)?;
    Ok(prefix.depth(v) == 3 && !prefix.is_pivot::<Cubes>(Lit::new(v, true)))
}

// Whether all three variables and one of no scope stand where they should.
fn are_moved(prefix: &Prefix) -> Result<bool, Fail> {
    for (n, level, quant) in [
        (5, 1, Quant::Forall),
        (3, 2, Quant::Exists),
        (7, 2, Quant::Exists),
    ] {
        if !stands(prefix, n, level, quant)? {
            return Ok(false);
        }
    }
    is_absent(prefix, 9)
}

#[test]
fn scopes_move_up_when_one_is_put_in_front(rt: HostRuntime) -> Result<(), Fail> {
    let mut prefix = Prefix::new(rt.alloc());
    put_in_front(&mut prefix)?;
    assert!(rt; are_moved(&prefix)?);
    assert!(rt; are_scopes(&prefix));
    Ok(())
}

// Existential variables 1 and 2, and the universal 3 behind them.
fn put_behind(prefix: &mut Prefix) -> Result<(), PrefixRefusal> {
    prefix.add_scope(Quant::Exists, None)?;
    prefix.add_var(1, 1)?;
    prefix.add_var(2, 1)?;
    prefix.add_scope(Quant::Forall, None)?;
    prefix.add_var(3, 2)
}

// The levels of 1, 2 and 3, and how many scopes there are.
fn levels(prefix: &Prefix) -> Result<([Option<usize>; 3], usize), Fail> {
    let levels = [
        prefix.level(variable(1)?),
        prefix.level(variable(2)?),
        prefix.level(variable(3)?),
    ];
    Ok((levels, prefix.scopes()))
}

// Whether the others stay where one is taken out, and all where it isn't there.
fn leave_in_turn(prefix: &mut Prefix) -> Result<bool, Fail> {
    for (number, second, third) in [(2, None, Some(2)), (3, None, None), (9, None, None)] {
        prefix.remove_var(variable(number)?);
        if levels(prefix)? != ([Some(1), second, third], 2) {
            return Ok(false);
        }
    }
    Ok(true)
}

#[test]
fn a_variable_is_taken_out_and_its_scope_stays(rt: HostRuntime) -> Result<(), Fail> {
    let mut prefix = Prefix::new(rt.alloc());
    put_behind(&mut prefix)?;
    assert!(rt; leave_in_turn(&mut prefix)?);
    Ok(())
}

// Whether variables and scopes are refused in order, and the greatest variable isn't, by a prefix of one variable.
fn refuses(prefix: &mut Prefix) -> bool {
    for (var, scope, want) in [
        (0, 2, PrefixRefusal::VarRange),
        (1_048_577, 0, PrefixRefusal::VarRange),
        (1, 0, PrefixRefusal::VarTwice),
        (1, 1, PrefixRefusal::VarTwice),
        (2, 0, PrefixRefusal::ScopeRange),
        (1_048_576, 2, PrefixRefusal::ScopeRange),
    ] {
        if prefix.add_var(var, scope) != Err(want) {
            return false;
        }
    }
    for at in [0, 3, u64::MAX] {
        if prefix.add_scope(Quant::Forall, Some(at)) != Err(PrefixRefusal::ScopeRange) {
            return false;
        }
    }
    prefix.add_var(1_048_576, 1) == Ok(())
}

#[test]
fn refusals_come_in_order(rt: HostRuntime) -> Result<(), Fail> {
    let mut prefix = Prefix::new(rt.alloc());
    prefix.add_scope(Quant::Exists, None)?;
    prefix.add_var(1, 1)?;
    assert!(rt; refuses(&mut prefix));
    Ok(())
}

#[test]
fn literals_have_signed_numbers(rt: HostRuntime) -> Result<(), Fail> {
    let four = literal(4)?;
    let lits = LitList::from_vec(vec![in rt.alloc(); four, four.negate()]?)?;
    assert!(rt; matches!(lits.lits(), [a, b] if a.number() == 4 && b.number() == -4));
    Ok(())
}

// Up to five literals stand in place, more of them in a vector of their own.
#[test]
fn lists_of_any_length_keep_their_literals(rt: HostRuntime) -> Result<(), Fail> {
    let alloc = rt.alloc();
    assert!(rt; keeps(alloc, &[])? && keeps(alloc, &[5])?);
    assert!(rt; keeps(alloc, &[7, -2])? && keeps(alloc, &[3, 1, -2])?);
    assert!(rt; keeps(alloc, &[4, -3, 2, 1])? && keeps(alloc, &[1, 2, 3, 5, -4])?);
    assert!(rt; keeps(alloc, &[6, 5, -4, 3, 2, -1])? && keeps(alloc, &[1, -3, 2, 4, 7, 6, 5])?);
    Ok(())
}

// Whether a list of the literals with these numbers has these.
fn keeps(alloc: Global, numbers: &[i32]) -> Result<bool, Fail> {
    let list = list_of(alloc, numbers)?;
    Ok(list.lits().len() == numbers.len() && are_numbered(list.lits(), numbers))
}

// The list of the literals with these numbers.
fn list_of(alloc: Global, numbers: &[i32]) -> Result<LitList, Fail> {
    let mut lits = Vec::new(alloc);
    for n in numbers {
        lits.push(literal(*n)?)?;
    }
    Ok(LitList::from_vec(lits)?)
}

// Whether literals have these numbers.
fn are_numbered(lits: &[Lit], numbers: &[i32]) -> bool {
    for (lit, n) in lits.iter().zip(numbers) {
        if lit.number() != *n {
            return false;
        }
    }
    true
}
