//! The fleet plan that routes with shares are.

ghost use Rattle.std.specs.Prelude.{◌≡◌, ◌≤◌, map, length, IfOk, MatchOption};
ghost use Rattle.ev_model.specs.Fleet.{IsFleetPlan};
ghost use Rattle.instance_reader.specs.Instance.{customer_nodes, most_customers};
ghost use Rattle.column_pool.specs.Bounds.{plans_of};
ghost use Rattle.plan_check.specs.FleetRules.{stops_of};
ghost use Rattle.ev_fleet.specs.SameRoutes.{IsPlanOf};

use bound_certificate::Share;
use ev_list::Listed;
use instance_reader::Instance;
use plan_check::{check_fleet, fleet_plans_break_no_rule};
use route_plan::{FleetPlan, RoutePlan};
use set_partitioning::sort_by_first;
use std::alloc::{AllocError, Global};

/// The plans of the shares as a fleet plan, in rising order of their first customers; `None`
/// exactly where they are no fleet plan. The only `Err` is want of memory.
#[tactic(auto, using(crate::proofs::Routed::stops_of_shares))]
pub(crate) fn plan_of_shares(
    alloc: Global,
    inst: &Instance,
    shares: &[Share],
) -> Result<Option<FleetPlan>, AllocError>
    requires few { length (customer_nodes inst.now) ≤ most_customers }
    ensures { IfOk result (λ answer. MatchOption answer
        (IsFleetPlan inst.now 1 (plans_of shares.now) → ⊥)
        (IsPlanOf inst.now (plans_of shares.now))) }
{
    let routes = routes_of(alloc, shares)?;
    Ok(plan_of_routes(inst, routes))
}

/// The routes as a fleet plan, in rising order of their first customers; `None` exactly where they
/// are no fleet plan. It takes no memory.
pub(crate) fn plan_of_routes(inst: &Instance, mut routes: Vec<RoutePlan>) -> Option<FleetPlan>
    requires few { length (customer_nodes inst.now) ≤ most_customers }
    ensures { MatchOption result (IsFleetPlan inst.now 1 (stops_of routes.items) → ⊥)
        (IsPlanOf inst.now (stops_of routes.items)) }
{
    sort_by_first(&mut routes);
    let plan = FleetPlan {
        routes: Listed::from_vec(routes),
    };
    let _nodes = inst.nodes();
    fleet_plans_break_no_rule();
    match check_fleet(inst, &plan) {
        Ok(_) => Some(plan),
        Err(_) => None,
    }
}

/// The plans of the shares.
fn routes_of(alloc: Global, shares: &[Share]) -> Result<Vec<RoutePlan>, AllocError>
    ensures { IfOk result (λ routes. routes.items ≡ map (λ x. x.plan) shares.now) }
{
    let mut routes = Vec::with_capacity(alloc, shares.len())?;
    for share in shares {
        routes.push(share.plan.copy(alloc)?)?;
    }
    Ok(routes)
}
