//! The routes of which a search begins.

ghost use Rattle.std.specs.Prelude.{◌≡◌, ◌≢◌, ◌≤◌, ◌<◌, [], length, true, IfOk, IfErr};
ghost use Rattle.std.specs.List.{All};
ghost use Rattle.ev_model.specs.Feasible.{IsFeasible};
ghost use Rattle.ev_model.specs.Fleet.{IsFleetPlan, ServesOnly, cost_of, customers_of, times_in};
ghost use Rattle.ev_model.specs.Network.{is_customer, node_count};
ghost use Rattle.ev_model.specs.Time.{time_of};
ghost use Rattle.plan_check.specs.FleetRules.{stops_of};
ghost use Rattle.plan_check.specs.Tallies.{AreKnown};
ghost use Rattle.order_pricing.specs.Orders.{IsOrder};
ghost use Rattle.route_improve.specs.Begun.{IsRouteOf};
ghost use Rattle.route_improve.specs.Routes.{AreRoutes, cost_of_routes};

use crate::route::Route;
use ev_model::Stop;
use instance_reader::Instance;
use order_pricing::Pricer;
use route_plan::FleetPlan;
use std::alloc::{AllocError, Global};

/// The routes of a fleet plan, each with the least time of its order. They don't cost more than the
/// plan.
pub(crate) fn routes_of(
    alloc: Global,
    inst: &Instance,
    pricer: &mut Pricer,
    plan: &FleetPlan,
) -> Result<Vec<Route>, AllocError>
    requires network { pricer.old ≡ inst.now }
    requires fleet { IsFleetPlan inst.now 1 (stops_of plan.now.routes) }
    ensures network { pricer.new ≡ pricer.old }
    ensures routes { IfOk result (λ routes. AreRoutes inst.now routes.items) }
    ensures no_more { IfOk result (λ routes.
        cost_of_routes routes.items ≤ cost_of inst.now 1 (stops_of plan.now.routes)) }
{
    let mut routes = Vec::new(alloc);
    for own in plan.routes.as_slice() {
        routes.push(route_of(alloc, inst, pricer, own.stops.as_slice())?)?;
    }
    Ok(routes)
}

/// The route of a plan, with the least time of its order.
fn route_of(
    alloc: Global,
    inst: &Instance,
    pricer: &mut Pricer,
    stops: &[Stop],
) -> Result<Route, AllocError>
    requires network { pricer.old ≡ inst.now }
    requires feasible { IsFeasible inst.now 1 inst.now.capacity stops.now }
    requires only { ServesOnly inst.now stops.now }
    requires order { IsOrder inst.now (customers_of inst.now stops.now) }
    ensures network { pricer.new ≡ pricer.old }
    ensures route { IfOk result (IsRouteOf inst.now stops.now) }
{
    let order = customers_of(alloc, inst, stops)?;
    match pricer.least_time(alloc, &order)? {
        Some(time) => Ok(Route { order, time }),
        None => unreachable!(),
    }
}

/// The customers that the stops serve, in order.
fn customers_of(alloc: Global, inst: &Instance, stops: &[Stop]) -> Result<Vec<usize>, AllocError>
    requires { AreKnown inst.now stops.now }
    ensures { IfOk result (λ order. order.items ≡ customers_of inst.now stops.now) }
{
    let mut order = Vec::new(alloc);
    for stop in stops {
        if !stop.via && inst.customer_number(stop.node).is_some() {
            order.push(stop.node)?;
        }
    }
    Ok(order)
}
