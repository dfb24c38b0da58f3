//! The variables of a prefix in order.
ghost use Rattle.std.specs.Prelude.{◌≡◌, ◌∷◌, ◌++◌, map, OnOk, OnErr, IfOk};
ghost use Rattle.prefix.specs.Scopes.{bound_by, prefix_order, AreDistinct, variables_of};
ghost use Rattle.truth.specs.Order.{bounds_of};

use prefix::{Prefix, Quant, Var};
use std::alloc::{AllocError, Global};
use std::collections::BTreeSet;

// A variable with its quantifier.
#[derive(Debug, Drop)]
pub(crate) struct BoundVar {
    pub(crate) quant: Quant,
    pub(crate) var: Var,
}

// The variables of a prefix with their quantifiers, in order.
pub(crate) fn order_of(alloc: Global, prefix: &Prefix) -> Result<Vec<BoundVar>, AllocError>
    ensures value { IfOk result (λ order. bounds_of order.items ≡ prefix_order prefix.now) }
    ensures distinct { IfOk result (λ order. AreDistinct (variables_of (bounds_of order.items))) }
{
    let mut order = Vec::new(alloc);
    for s in 0..prefix.scopes() {
        let quant = prefix.scope_quant(s + 1).unwrap();
        push_scope(&mut order, quant, prefix.vars_of(s + 1))?;
    }
    Ok(order)
}

// Puts the variables of a scope at the end.
fn push_scope(
    order: &mut Vec<BoundVar>,
    quant: Quant,
    vars: &BTreeSet<Var>,
) -> Result<(), AllocError>
    ensures { OnOk result (bounds_of order.new.items
        ≡ bounds_of order.old.items ++ map (bound_by quant) vars.now.keys) }
{
    for var in vars {
        order.push(BoundVar { quant, var: *var })?;
    }
    Ok(())
}
