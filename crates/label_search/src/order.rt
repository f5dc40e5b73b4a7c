//! Orders of customers: that in which the way to a label serves them, and the fastest plan in one.

ghost use Rattle.std.specs.Prelude.{◌≡◌, ◌<◌, ◌∷◌, ◌++◌, [], IfOk, MatchOption, OnOk, Some, if◌then◌else◌, length, slice_get};
ghost use Rattle.ev_model.specs.Fastest.{HasNoPlan, IsFastest};
ghost use Rattle.ev_model.specs.Network.{is_customer, node_count};
ghost use Rattle.ev_model.specs.Route.{IsRoute};
ghost use Rattle.label_search.specs.Laws.{IsLawful};
ghost use Rattle.label_search.specs.Tree.{IsTree};
ghost use Rattle.label_search.specs.declared.found.Found.{Found};

use crate::found::Tree;
use crate::resources::Resources;
use frvcp_labels::solve_route;
use instance_reader::Instance;
use route_plan::RoutePlan;
use std::alloc::{AllocError, Global};

/// The nodes of the customers who were served on the way to a label that earns, in order.
pub(crate) fn order_of<R: Resources>(
    alloc: Global,
    resources: &R,
    tree: &Tree<R::Label>,
    home: usize,
) -> Result<Vec<usize>, AllocError>
    requires lawful { IsLawful (R.space resources.now) }
    requires tree { IsTree (R.space resources.now) tree.now.found.items tree.now.groups.items }
    requires known { home < length tree.now.found.items }
    requires earns { (f : Found R.Label) → slice_get tree.now.found.items home ≡ Some f →
        (R.space resources.now).earns f.label }
    ensures { IfOk result (λ order. (R.space resources.now).has_route order.items) }
{
    let mut order = Vec::new(alloc);
    let mut at = home;
    while let Some(parent) = tree.found[at].parent {
        let node = resources.node(&tree.found[at].label);
        push_customer(&mut order, resources.instance(), node)?;
        at = parent;
    }
    order.reverse();
    Ok(order)
}

/// Appends the node, if it is a customer.
fn push_customer(order: &mut Vec<usize>, inst: &Instance, node: usize) -> Result<(), AllocError>
    requires { node < node_count inst.now }
    ensures { OnOk result (order.new.items ≡ (if is_customer inst.now node
        then order.old.items ++ node ∷ [] else order.old.items)) }
{
    if inst.customer_number(node).is_some() {
        order.push(node)?;
    }
    Ok(())
}

/// A fastest plan that serves the customers at these nodes in this order, from a full battery, or
/// none exactly where no plan is feasible, in any fraction of a unit. The only `Err` is want of
/// memory.
pub fn fastest_along(
    alloc: Global,
    inst: &Instance,
    order: &[usize],
) -> Result<Option<RoutePlan>, AllocError>
    requires { IsRoute inst.now (0 ∷ order.now ++ 0 ∷ []) }
    ensures { IfOk result (λ answer. MatchOption answer
        (HasNoPlan inst.now (0 ∷ order.now ++ 0 ∷ []) inst.now.capacity)
        (λ plan. IsFastest inst.now (0 ∷ order.now ++ 0 ∷ []) inst.now.capacity plan.stops)) }
{
    let route = round_trip(alloc, order)?;
    solve_route(alloc, inst, &route, inst.max_q())
}

/// The nodes between two visits to the depot.
fn round_trip(alloc: Global, inner: &[usize]) -> Result<Vec<usize>, AllocError>
    ensures { IfOk result (λ route. route.items ≡ 0 ∷ inner.now ++ 0 ∷ []) }
{
    let mut route = Vec::with_capacity(alloc, inner.len())?;
    route.push(0)?;
    route.extend_from_slice(inner)?;
    route.push(0)?;
    Ok(route)
}
