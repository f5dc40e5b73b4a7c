//! Plans of the orders that a search found, and orders of plans.

ghost use Rattle.std.specs.Prelude.{◌≡◌, ◌∷◌, ◌++◌, [], true, IfOk};
ghost use Rattle.ruin_recreate.specs.Inner.{AreInner};

use ev_list::Listed;
use frvcp_labels::solve_route;
use instance_reader::Instance;
use route_plan::{FleetPlan, RoutePlan};
use std::alloc::{AllocError, Global};

/// The fastest plans of orders of nodes, if each order has one.
pub(crate) fn plan_of(
    alloc: Global,
    inst: &Instance,
    orders: &[Vec<usize>],
) -> Result<Option<FleetPlan>, AllocError> {
    let mut plans = Vec::new(alloc);
    for order in orders {
        match fastest_plan(alloc, inst, order)? {
            Some(plan) => plans.push(plan)?,
            None => return Ok(None),
        }
    }
    Ok(Some(FleetPlan {
        routes: Listed::from_vec(plans),
    }))
}

/// A fastest plan that visits these nodes in this order, if there is one.
fn fastest_plan(
    alloc: Global,
    inst: &Instance,
    inner: &[usize],
) -> Result<Option<RoutePlan>, AllocError> {
    // That there is a depot is told by this call.
    let _nodes = inst.nodes();
    if !are_inner(inst, 0, inner) {
        return Ok(None);
    }
    let route = round_trip(alloc, inner)?;
    solve_route(alloc, inst, &route, inst.max_q())
}

/// Whether these nodes may stand behind a node on a route, before the depot.
fn are_inner(inst: &Instance, before: usize, inner: &[usize]) -> bool
    ensures { result ≡ true → AreInner inst.now before inner.now }
{
    match inner {
        [] => before != 0,
        [node, rest @ ..] => {
            *node < inst.nodes() && *node != 0 && *node != before && are_inner(inst, *node, rest)
        }
    }
}

/// The nodes between two visits to the depot.
fn round_trip(alloc: Global, inner: &[usize]) -> Result<Vec<usize>, AllocError>
    ensures { IfOk result (λ route. route.items ≡ 0 ∷ inner.now ++ 0 ∷ []) }
{
    let mut route = Vec::with_capacity(alloc, inner.len())?;
    route.push(0)?;
    route.extend_from_slice(inner)?;
    route.push(0)?;
    Ok(route)
}

/// The orders in which the routes of a plan serve customers, by number.
pub(crate) fn orders_of(
    alloc: Global,
    inst: &Instance,
    plan: Option<&FleetPlan>,
) -> Result<Vec<Vec<usize>>, AllocError> {
    let mut orders = Vec::new(alloc);
    if let Some(plan) = plan {
        for route in plan.routes.as_slice() {
            orders.push(order_of(alloc, inst, route)?)?;
        }
    }
    Ok(orders)
}

/// The order in which a route serves customers, by number.
fn order_of(alloc: Global, inst: &Instance, route: &RoutePlan) -> Result<Vec<usize>, AllocError> {
    let mut order = Vec::new(alloc);
    for stop in route.stops.as_slice() {
        if !stop.via && stop.node < inst.nodes() {
            if let Some(number) = inst.customer_number(stop.node) {
                order.push(number)?;
            }
        }
    }
    Ok(order)
}
