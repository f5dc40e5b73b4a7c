//! The rules of a fleet plan behind the walks. They ask of the instance only which nodes are
//! customers.

ghost use Rattle.std.specs.Prelude.{◌≡◌, ◌<◌, ◌≤◌, IfNone, IfSome, length};
ghost use Rattle.std.specs.List.{list_any};
ghost use Rattle.ev_model.specs.Network.{node_count};
ghost use Rattle.instance_reader.specs.Instance.{customer_nodes, most_customers};
ghost use Rattle.plan_check.specs.FirstFaults.{first_empty, first_stray, first_stray_from, later_fault, serves, strays};
ghost use Rattle.plan_check.specs.LaterRules.{IsFirstLater, KeepsLater, plans_by};
ghost use Rattle.plan_check.specs.Tallies.{AllKnown, AreKnown, first_again, first_missed};
ghost use Rattle.route_plan.specs.FirstPlaces.{behind_first};

use crate::fault::PlanFault;
use crate::has_stops::HasStops;
use crate::tally::count_visits;
use ev_model::Stop;
use instance_reader::{Instance, MOST_CUSTOMERS};

/// The first broken rule of a fleet plan behind the walks along its routes, whatever is driven
/// along them: of the rules of [`crate::check_fleet`] those from the second on, in the same order.
/// `None` exactly where none of them is broken. It takes no memory.
pub fn fault_behind_walks<R: HasStops>(inst: &Instance, routes: &[R]) -> Option<PlanFault>
    requires few { length (customer_nodes inst.now) ≤ most_customers }
    requires known { AllKnown inst.now (plans_by R.stops_of routes.now) }
    ensures first { IfSome result (IsFirstLater inst.now (plans_by R.stops_of routes.now)) }
    ensures none { IfNone result (KeepsLater inst.now (plans_by R.stops_of routes.now)) }
{
    let mut visits = [0; MOST_CUSTOMERS];
    later_fault(inst, routes, &mut visits)
}

/// The first broken rule behind the walks, by room for a count of visits for each customer.
pub(crate) fn later_fault<R: HasStops>(
    inst: &Instance,
    routes: &[R],
    visits: &mut [u8],
) -> Option<PlanFault>
    requires room { length (customer_nodes inst.now) ≤ length visits.old }
    requires known { AllKnown inst.now (plans_by R.stops_of routes.now) }
    ensures { result ≡ later_fault inst.now (plans_by R.stops_of routes.now) }
{
    count_visits(inst, routes, visits);
    if let Some(customer) = first_again(inst, visits) {
        return Some(PlanFault::Twice { customer });
    }
    if let Some(customer) = first_missed(inst, visits) {
        return Some(PlanFault::Unserved { customer });
    }
    if let Some(route) = empty_route(inst, routes) {
        return Some(PlanFault::EmptyRoute { route });
    }
    stray(inst, routes)
}

/// The first customer that was counted more than once.
#[tactic(auto, using(crate::proofs::VisitCounts::once_passed))]
fn first_again(inst: &Instance, visits: &[u8]) -> Option<usize>
    requires { length (customer_nodes inst.now) ≤ length visits.now }
    ensures { result ≡ first_again visits.now 0 (customer_nodes inst.now) }
{
    let customers = inst.customers();
    for (number, node) in customers.iter().enumerate() {
        if visits[number] > 1 {
            return Some(*node);
        }
    }
    None
}

/// The first customer that wasn't counted.
#[tactic(auto, using(crate::proofs::VisitCounts::counted_passed))]
fn first_missed(inst: &Instance, visits: &[u8]) -> Option<usize>
    requires { length (customer_nodes inst.now) ≤ length visits.now }
    ensures { result ≡ first_missed visits.now 0 (customer_nodes inst.now) }
{
    let customers = inst.customers();
    for (number, node) in customers.iter().enumerate() {
        if visits[number] == 0 {
            return Some(*node);
        }
    }
    None
}

/// The first route without a customer.
fn empty_route<R: HasStops>(inst: &Instance, routes: &[R]) -> Option<usize>
    requires { AllKnown inst.now (plans_by R.stops_of routes.now) }
    ensures { result ≡ first_empty inst.now 0 (plans_by R.stops_of routes.now) }
{
    for (route, plan) in routes.iter().enumerate() {
        if !has_customer(inst, plan.stops()) {
            return Some(route);
        }
    }
    None
}

/// Whether one of the stops serves a customer.
fn has_customer(inst: &Instance, stops: &[Stop]) -> bool
    requires { AreKnown inst.now stops.now }
    ensures { result ≡ list_any (serves inst.now) stops.now }
{
    for stop in stops {
        if !stop.via && inst.customer_number(stop.node).is_some() {
            return true;
        }
    }
    false
}

/// The first stray stop, route by route.
fn stray<R: HasStops>(inst: &Instance, routes: &[R]) -> Option<PlanFault>
    requires { AllKnown inst.now (plans_by R.stops_of routes.now) }
    ensures { result ≡ first_stray_from inst.now 0 (plans_by R.stops_of routes.now) }
{
    for (route, plan) in routes.iter().enumerate() {
        if let Some(at) = stray_stop(inst, plan.stops()) {
            return Some(PlanFault::Stray { route, at });
        }
    }
    None
}

/// The first stop between the ends that wasn't inserted and isn't at a customer. It takes no
/// memory.
pub fn stray_stop(inst: &Instance, stops: &[Stop]) -> Option<usize>
    requires { AreKnown inst.now stops.now }
    ensures { result ≡ first_stray inst.now 1 (behind_first stops.now) }
{
    for at in 1..stops.len().saturating_sub(1) {
        if is_stray(inst, stops[at]) {
            return Some(at);
        }
    }
    None
}

/// Whether a stop wasn't inserted and isn't at a customer.
fn is_stray(inst: &Instance, stop: Stop) -> bool
    requires { stop.node < node_count inst.now }
    ensures { result ≡ strays inst.now stop }
{
    !stop.via && inst.customer_number(stop.node).is_none()
}
