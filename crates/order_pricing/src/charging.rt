//! Orders are charged: what a search tells of them.

ghost use Rattle.std.specs.Prelude.{◌≡◌, ◌≤◌, ◌≢◌, [], ℕ, IfOk, MatchOption};
ghost use Rattle.ev_model.specs.Fastest.{HasNoPlan, IsFastest};
ghost use Rattle.order_pricing.specs.Orders.{IsOrder, route_over};
ghost use Rattle.order_pricing.specs.Pricing.{IsKnownOf, IsTimeOf, Tells};

use crate::known::Known;
use frvcp_labels::{RouteBounds, solve_route};
use instance_reader::Instance;
use route_plan::RoutePlan;
use std::alloc::{AllocError, Global};

/// The least time of an order, found by a search.
pub(crate) fn charge(
    alloc: Global,
    inst: &Instance,
    order: &[usize],
) -> Result<Option<u64>, AllocError>
    requires order { IsOrder inst.now order.now }
    requires some { order.now ≢ [] }
    ensures { IfOk result (IsTimeOf inst.now order.now) }
{
    match fastest_plan(alloc, inst, order)? {
        Some(plan) => Ok(Some(plan.full_time(inst))),
        None => Ok(None),
    }
}

/// What a search below a bar tells of an order.
pub(crate) fn charge_below(
    alloc: Global,
    inst: &Instance,
    bounds: &RouteBounds,
    order: &[usize],
    bar: u128,
) -> Result<Known, AllocError>
    requires bounds { bounds.now ≡ inst.now }
    requires order { IsOrder inst.now order.now }
    requires some { order.now ≢ [] }
    ensures known { IfOk result (IsKnownOf inst.now order.now) }
    ensures tells { IfOk result (λ told. (least : ℕ) → least ≤ bar → Tells least told) }
{
    let _nodes = inst.nodes();
    let route = route_over(alloc, order)?;
    match bounds.solve_below(alloc, &route, inst.max_q(), bar)? {
        Some(plan) => Ok(Known::Time(plan.full_time(inst))),
        None => Ok(Known::NotBelow(bar)),
    }
}

/// A fastest plan, from full, that serves the customers in this order; `None` exactly where there
/// is none.
pub fn fastest_plan(
    alloc: Global,
    inst: &Instance,
    order: &[usize],
) -> Result<Option<RoutePlan>, AllocError>
    requires order { IsOrder inst.now order.now }
    requires some { order.now ≢ [] }
    ensures { IfOk result (λ found. MatchOption found
        (HasNoPlan inst.now (route_over order.now) inst.now.capacity)
        (λ plan. IsFastest inst.now (route_over order.now) inst.now.capacity plan.stops)) }
{
    let _nodes = inst.nodes();
    let route = route_over(alloc, order)?;
    solve_route(alloc, inst, &route, inst.max_q())
}

/// The route from the depot over the customers to the depot.
fn route_over(alloc: Global, order: &[usize]) -> Result<Vec<usize>, AllocError>
    ensures { IfOk result (λ route. route.items ≡ route_over order.now) }
{
    let mut route = Vec::new(alloc);
    route.push(0)?;
    route.extend_from_slice(order)?;
    route.push(0)?;
    Ok(route)
}
