//! Whether a plan costs no more than routes for the customers alone.

ghost use Rattle.std.specs.Prelude.{◌≡◌, ◌∷◌, [], IfOk, IsTrue};
ghost use Rattle.gap_search.specs.Gap.{IsNoMoreThanOwn};
ghost use Rattle.instance_reader.specs.Instance.{customer_nodes};
ghost use Rattle.order_pricing.specs.Pricing.{IsTimeOf};
ghost use Rattle.plan_check.specs.FleetRules.{IsCustomer};

use instance_reader::Instance;
use order_pricing::fastest_plan;
use std::alloc::{AllocError, Global};

/// Whether a scaled cost is no more than that of routes for the customers alone. Where some
/// customer has no route of his own it is no more than any.
pub(crate) fn is_no_more_than_own(
    alloc: Global,
    inst: &Instance,
    cost: u128,
) -> Result<bool, AllocError>
    ensures { IfOk result (λ no_more. IsTrue no_more
        → IsNoMoreThanOwn inst.now (customer_nodes inst.now) cost) }
{
    let customers = inst.customers();
    let mut left = cost;
    for node in customers {
        match own_time(alloc, inst, *node)? {
            Some(time) => left = left.saturating_sub(u128::from(time)),
            None => return Ok(true),
        }
    }
    Ok(left == 0)
}

/// The least time of a route for a customer alone; `None` exactly where there is none.
fn own_time(alloc: Global, inst: &Instance, node: usize) -> Result<Option<u64>, AllocError>
    requires { IsCustomer inst.now node }
    ensures { IfOk result (IsTimeOf inst.now (node ∷ [])) }
{
    let mut order = Vec::new(alloc);
    order.push(node)?;
    match fastest_plan(alloc, inst, &order)? {
        Some(plan) => Ok(Some(plan.full_time(inst))),
        None => Ok(None),
    }
}
