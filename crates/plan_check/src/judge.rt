//! The judge of fleet plans.

ghost use Rattle.std.specs.Prelude.{◌≡◌, ◌≤◌, IfErr, IfOk, length};
ghost use Rattle.ev_model.specs.Fleet.{cost_of, IsFleetPlan};
ghost use Rattle.instance_reader.specs.Instance.{customer_nodes, most_customers};
ghost use Rattle.plan_check.specs.FirstFaults.{cost_from};
ghost use Rattle.plan_check.specs.FleetRules.{IsFirstBroken, stops_of};
ghost use Rattle.plan_check.specs.LargeFaults.{IsLargeFault};

use crate::fault::{LargeFault, PlanFault};
use crate::later::later_fault;
use instance_reader::{Instance, MOST_CUSTOMERS};
use route_plan::{FleetPlan, RoutePlan, walk};
use std::alloc::{AllocError, Global};

/// The cost of a fleet plan, or its first broken rule. It takes no memory.
///
/// The cost is the sum of the scaled times of the routes: times multiplied by
/// [`Instance::denominator`]. The rules, each tried over the whole plan before the next:
///
/// 1. A walk along a route, from a full battery, comes to its end.
/// 2. No customer stands more than once over all routes.
/// 3. Each customer stands on a route.
/// 4. Each route serves a customer.
/// 5. A stop that wasn't inserted is at a customer, or is the first or the last of its route.
///
/// Where a rule is broken at several places, the first route is named, or the customer with the
/// least node, and of a route its first stray stop.
pub fn check_fleet(inst: &Instance, plan: &FleetPlan) -> Result<u128, PlanFault>
    requires { length (customer_nodes inst.now) ≤ most_customers }
    ensures valid { IfOk result (λ cost. IsFleetPlan inst.now 1 (stops_of plan.now.routes)) }
    ensures cost { IfOk result (λ cost. cost ≡ cost_of inst.now 1 (stops_of plan.now.routes)) }
    ensures broken { IfErr result (IsFirstBroken inst.now plan.now.routes) }
{
    let mut visits = [0; MOST_CUSTOMERS];
    judge(inst, plan.routes.as_slice(), &mut visits)
}

/// The cost of a fleet plan for any number of customers, or its first broken rule: cost, rules and
/// their order are those of [`check_fleet`].
pub fn check_large(alloc: Global, inst: &Instance, plan: &FleetPlan) -> Result<u128, LargeFault>
    ensures valid { IfOk result (λ cost. IsFleetPlan inst.now 1 (stops_of plan.now.routes)) }
    ensures cost { IfOk result (λ cost. cost ≡ cost_of inst.now 1 (stops_of plan.now.routes)) }
    ensures broken { IfErr result (IsLargeFault inst.now plan.now.routes) }
{
    let mut visits = match vec![in alloc; 0; inst.customers().len()] {
        Ok(visits) => visits,
        Err(AllocError) => return Err(LargeFault::Memory),
    };
    match judge(inst, plan.routes.as_slice(), visits.as_mut_slice()) {
        Ok(cost) => Ok(cost),
        Err(fault) => Err(LargeFault::Plan { fault }),
    }
}

/// The cost of the routes of a fleet plan, or the first broken rule, by room for a
/// count of visits for each customer.
fn judge(inst: &Instance, routes: &[RoutePlan], visits: &mut [u8]) -> Result<u128, PlanFault>
    requires room { length (customer_nodes inst.now) ≤ length visits.old }
    ensures valid { IfOk result (λ cost. IsFleetPlan inst.now 1 (stops_of routes.now)) }
    ensures cost { IfOk result (λ cost. cost ≡ cost_of inst.now 1 (stops_of routes.now)) }
    ensures broken { IfErr result (IsFirstBroken inst.now routes.now) }
{
    let cost = cost_of_routes(inst, routes)?;
    match later_fault(inst, routes, visits) {
        Some(fault) => Err(fault),
        None => Ok(cost),
    }
}

/// The cost of the routes, or the first fault of a walk along one of them from a full battery.
fn cost_of_routes(inst: &Instance, routes: &[RoutePlan]) -> Result<u128, PlanFault>
    ensures { result ≡ cost_from inst.now 0 0 routes.now }
{
    let mut cost = 0;
    for (route, plan) in routes.iter().enumerate() {
        match walk(inst, inst.max_q(), plan.stops.as_slice()) {
            Ok(end) => cost += end.time as u128,
            Err(fault) => return Err(PlanFault::Walk { route, fault }),
        }
    }
    Ok(cost)
}
