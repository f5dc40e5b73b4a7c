//! The judge of plans of fleets of several kinds of vehicles.

ghost use Rattle.std.specs.Prelude.{◌≡◌, ◌<◌, ◌≤◌, IfErr, IfOk, length};
ghost use Rattle.std.specs.List.{All};
ghost use Rattle.instance_reader.specs.Instance.{customer_nodes, most_customers};
ghost use Rattle.mixed_model.specs.Kinds.{AreKinds, first_of};
ghost use Rattle.mixed_model.specs.Meaning.{kind_plan, kind_plans};
ghost use Rattle.mixed_model.specs.Plans.{IsFeasibleIn, IsMixedPlan, mixed_cost, time_in};
ghost use Rattle.mixed_model.specs.MixedRules.{FailsWalk, IsFirstBroken, IsFirstWalk};

use crate::MixedRoute;
use instance_reader::Instance;
use plan_check::{PlanFault, fault_behind_walks};
use route_plan::{Walk, WalkFault, walk};

/// The cost of a plan of a fleet of several kinds of vehicles, or its first broken rule. It takes
/// no memory.
///
/// The cost is the sum of the scaled times of the routes, each as a vehicle of its kind drives it:
/// times multiplied by the denominator that all kinds share. The rules, each tried over the whole
/// plan before the next:
///
/// 1. A walk along a route, by a vehicle of its kind that starts full, comes to its end.
/// 2. No customer stands more than once over all routes.
/// 3. Each customer stands on a route.
/// 4. Each route serves a customer.
/// 5. A stop that wasn't inserted is at a customer, or is the first or the last of its route.
///
/// Where a rule is broken at several places, the first route is named, or the customer with the
/// least node, and of a route its first stray stop.
pub fn check_mixed_plan(kinds: &[Instance], plan: &[MixedRoute]) -> Result<u128, PlanFault>
    requires kinds { AreKinds kinds.now }
    requires few { length (customer_nodes (first_of kinds.now)) ≤ most_customers }
    requires known { All (λ r. r.kind < length kinds.now) plan.now }
    ensures valid { IfOk result (λ cost. IsMixedPlan kinds.now 1 (kind_plans plan.now)) }
    ensures cost { IfOk result (λ cost. cost ≡ mixed_cost kinds.now 1 (kind_plans plan.now)) }
    ensures broken { IfErr result (IsFirstBroken kinds.now plan.now) }
{
    let cost = cost_of_routes(kinds, plan)?;
    match fault_behind_walks(&kinds[0], plan) {
        Some(fault) => Err(fault),
        None => Ok(cost),
    }
}

/// The cost of the routes, or the first fault of a walk along one of them by a vehicle of its kind
/// that starts full.
fn cost_of_routes(kinds: &[Instance], plan: &[MixedRoute]) -> Result<u128, PlanFault>
    requires { All (λ r. r.kind < length kinds.now) plan.now }
    ensures feasible { IfOk result (λ cost.
        All (λ r. IsFeasibleIn kinds.now 1 (kind_plan r)) plan.now) }
    ensures cost { IfOk result (λ cost. cost ≡ mixed_cost kinds.now 1 (kind_plans plan.now)) }
    ensures fault { IfErr result (IsFirstWalk kinds.now plan.now) }
{
    let mut cost = 0;
    for (route, item) in plan.iter().enumerate() {
        match walk_of_kind(kinds, item) {
            Ok(end) => cost += end.time as u128,
            Err(fault) => return Err(PlanFault::Walk { route, fault }),
        }
    }
    Ok(cost)
}

/// Walks along a route, by a vehicle of its kind that starts full.
fn walk_of_kind(kinds: &[Instance], route: &MixedRoute) -> Result<Walk, WalkFault>
    requires { route.now.kind < length kinds.now }
    ensures feasible { IfOk result (λ w. IsFeasibleIn kinds.now 1 (kind_plan route.now)) }
    ensures time { IfOk result (λ w. w.time ≡ time_in kinds.now 1 (kind_plan route.now)) }
    ensures fails { IfErr result (FailsWalk kinds.now route.now) }
{
    let inst = &kinds[route.kind];
    walk(inst, inst.max_q(), route.plan.stops.as_slice())
}
