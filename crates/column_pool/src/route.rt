//! Routes of a node: whom they serve, what they cost, what they are worth.

ghost use Rattle.std.specs.Prelude.{◌≡◌, ◌<◌, ◌≤◌, [], IfOk, IfSome, length, map, true};
ghost use Rattle.std.specs.List.{All};
ghost use Rattle.ev_model.specs.Network.{is_customer, node_count};
ghost use Rattle.fleet_model.specs.Places.{customer_number};
ghost use Rattle.instance_reader.specs.Instance.{customer_nodes, most_customers};
ghost use Rattle.price_loop.specs.Columns.{set_of};
ghost use Rattle.price_loop.specs.Problems.{worth};
ghost use Rattle.route_pool.specs.Pool.{full_time, IsColumn, IsPool};
ghost use Rattle.column_pool.specs.Nodes.{IsTimedRoute, plans_of_routes, timed};

use customer_sets::{CustSet, Pairs};
use ev_list::Listed;
use instance_reader::Instance;
use pricing::PricedRoute;
use route_plan::RoutePlan;
use route_pool::{ColumnPool, keeps_pairs, number_of};
use std::alloc::{AllocError, Global};

/// A route with the nodes of its customers, in the order in which it serves them, and its scaled
/// time from full.
#[derive(Drop)]
pub(crate) struct NodeRoute {
    pub(crate) plan: RoutePlan,
    pub(crate) order: Listed<usize>,
    pub(crate) time: u64,
}

/// The route with its time.
pub(crate) fn timed(inst: &Instance, route: PricedRoute) -> NodeRoute
    requires { IsColumn inst.now route.order.items route.plan.stops }
    ensures { result ≡ timed inst.now route }
{
    let PricedRoute { plan, order } = route;
    let time = plan.full_time(inst);
    NodeRoute {
        plan,
        order: Listed::from_vec(order),
        time,
    }
}

/// The routes with their times.
pub(crate) fn timed_all(
    alloc: Global,
    inst: &Instance,
    routes: Vec<PricedRoute>,
) -> Result<Vec<NodeRoute>, AllocError>
    requires { IsPool inst.now routes.items }
    ensures { IfOk result (λ found. found.items ≡ map (timed inst.now) routes.items) }
{
    let mut found = Vec::with_capacity(alloc, routes.len())?;
    for route in routes {
        found.push(timed(inst, route))?;
    }
    Ok(found)
}

/// The routes at the places of the pool, as far as they keep the pairs.
pub(crate) fn routes_at(
    alloc: Global,
    inst: &Instance,
    pairs: &Pairs,
    pool: &ColumnPool,
    places: &[usize],
) -> Result<Vec<NodeRoute>, AllocError>
    requires few { length (customer_nodes inst.now) ≤ most_customers }
    requires pairs { pairs.now.customers ≡ length (customer_nodes inst.now) }
    requires pool { IsPool inst.now pool.now }
    ensures { IfOk result (λ found. All (IsTimedRoute inst.now pairs.now) found.items) }
{
    let mut found = Vec::new(alloc);
    for at in places {
        if let Some(route) = kept_at(alloc, inst, pairs, pool, *at)? {
            found.push(route)?;
        }
    }
    Ok(found)
}

/// A copy of the route at the place of the pool, where there is one and keeps the pairs.
fn kept_at(
    alloc: Global,
    inst: &Instance,
    pairs: &Pairs,
    pool: &ColumnPool,
    at: usize,
) -> Result<Option<NodeRoute>, AllocError>
    requires few { length (customer_nodes inst.now) ≤ most_customers }
    requires pairs { pairs.now.customers ≡ length (customer_nodes inst.now) }
    requires pool { IsPool inst.now pool.now }
    ensures { IfOk result (λ found. IfSome found (IsTimedRoute inst.now pairs.now)) }
{
    let Some((order, plan)) = pool.route_at(at) else {
        return Ok(None);
    };
    if !keeps_pairs(inst, pairs, order) {
        return Ok(None);
    }
    let route = copied(alloc, inst, order, plan)?;
    Ok(Some(route))
}

/// A copy of a route, with its time.
fn copied(
    alloc: Global,
    inst: &Instance,
    order: &[usize],
    plan: &RoutePlan,
) -> Result<NodeRoute, AllocError>
    requires { IsColumn inst.now order.now plan.now.stops }
    ensures { IfOk result (λ copy. copy ≡ record {
      plan = plan.now;
      order = order.now;
      time = full_time inst.now plan.now.stops;
    }) }
{
    let mut nodes = Vec::with_capacity(alloc, order.len())?;
    nodes.extend_from_slice(order)?;
    let copy = PricedRoute {
        plan: plan.copy(alloc)?,
        order: nodes,
    };
    Ok(timed(inst, copy))
}

/// The plans of routes.
pub(crate) fn plans_of(alloc: Global, routes: Vec<NodeRoute>) -> Result<Vec<RoutePlan>, AllocError>
    ensures { IfOk result (λ plans. plans.items ≡ plans_of_routes routes.items) }
{
    routes.into_iter().map(plan_of).collect(alloc)
}

/// The plan of a route.
fn plan_of(route: NodeRoute) -> RoutePlan
    ensures { result ≡ route.plan }
{
    route.plan
}

/// The customers at the nodes.
pub(crate) fn set_of(inst: &Instance, order: &[usize]) -> CustSet
    requires few { length (customer_nodes inst.now) ≤ most_customers }
    requires known { All (λ node. node < node_count inst.now) order.now }
    requires customers { All (λ node. is_customer inst.now node ≡ true) order.now }
    ensures { result ≡ set_of [] (map (customer_number inst.now) order.now) }
{
    let mut set = CustSet::empty();
    for node in order {
        set = set.with(number_of(inst, *node));
    }
    set
}

/// The price sum of the customers at the nodes.
pub(crate) fn worth(inst: &Instance, of: &[u64], order: &[usize]) -> u128
    requires known { All (λ node. node < node_count inst.now) order.now }
    requires customers { All (λ node. is_customer inst.now node ≡ true) order.now }
    requires one_price { length of.now ≡ length (customer_nodes inst.now) }
    ensures { result ≡ worth of.now (map (customer_number inst.now) order.now) }
{
    let mut sum = 0;
    for node in order {
        sum += u128::from(of[number_of(inst, *node)]);
    }
    sum
}
