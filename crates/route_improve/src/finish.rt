//! The plan of routes that no move makes cheaper.

ghost use Rattle.std.specs.Prelude.{◌≡◌, ◌≢◌, [], IfOk};
ghost use Rattle.order_pricing.specs.Orders.{IsLeastTime, IsOrder};
ghost use Rattle.route_improve.specs.Finished.{ArePlansOf, IsPlanOf};
ghost use Rattle.route_improve.specs.Arranged.{are_served};
ghost use Rattle.route_improve.specs.Routes.{AreRoutes};

use crate::route::Route;
use ev_list::Listed;
use instance_reader::Instance;
use order_pricing::fastest_plan;
use route_plan::{FleetPlan, RoutePlan};
use std::alloc::{AllocError, Global};

/// A fastest plan for each route that has customers.
pub(crate) fn plan_of(
    alloc: Global,
    inst: &Instance,
    routes: &[Route],
) -> Result<FleetPlan, AllocError>
    requires { AreRoutes inst.now routes.now }
    ensures { IfOk result (λ plan. ArePlansOf inst.now (are_served routes.now) plan.routes) }
{
    let mut plans = Vec::new(alloc);
    for route in routes {
        if !route.order.is_empty() {
            plans.push(plan_of_route(alloc, inst, route)?)?;
        }
    }
    Ok(FleetPlan {
        routes: Listed::from_vec(plans),
    })
}

/// A fastest plan for a route.
fn plan_of_route(alloc: Global, inst: &Instance, route: &Route) -> Result<RoutePlan, AllocError>
    requires order { IsOrder inst.now route.now.order.items }
    requires some { route.now.order.items ≢ [] }
    requires least { IsLeastTime inst.now route.now.order.items route.now.time }
    ensures { IfOk result (IsPlanOf inst.now route.now) }
{
    match fastest_plan(alloc, inst, &route.order)? {
        Some(plan) => Ok(plan),
        None => unreachable!(),
    }
}
