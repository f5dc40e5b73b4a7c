//! Routes of a fleet.

ghost use Rattle.std.specs.Prelude.{◌≡◌, ◌<◌, ◌≤◌, [], IfNone, IfSome, length};
ghost use Rattle.certificate_check.specs.Routes.{IsListedRoute, IsRouteAmong, IsServedBy, served_once};
ghost use Rattle.ev_model.specs.Network.{node_count};
ghost use Rattle.fleet_model.specs.Cover.{IsFleetRoute};
ghost use Rattle.fleet_model.specs.Places.{customer_count};
ghost use Rattle.instance_reader.specs.Instance.{customer_nodes, most_customers};
ghost use Rattle.plan_check.specs.Tallies.{AreKnown};

use customer_sets::CustSet;
use instance_reader::Instance;
use master_table::ListedRoute;
use plan_check::stray_stop;
use route_plan::{Stop, walk};

/// The customers and the scaled time of a route of a fleet: a feasible plan from full that serves
/// customers alone, one at least and each once. `None` exactly where the stops are none. It takes
/// no memory.
pub fn fleet_route(inst: &Instance, stops: &[Stop]) -> Option<ListedRoute>
    requires few { length (customer_nodes inst.now) ≤ most_customers }
    ensures route { IfSome result (IsListedRoute inst.now stops.now) }
    ensures among { IfSome result (IsRouteAmong (customer_count inst.now)) }
    ensures none { IfNone result (IsFleetRoute inst.now 1 stops.now → ⊥) }
{
    // A feasible plan takes at most the limit.
    let _limit = inst.limit();
    let Ok(end) = walk(inst, inst.max_q(), stops) else {
        return None;
    };
    let Some(set) = served_once(inst, stops) else {
        return None;
    };
    if set.is_empty() || stray_stop(inst, stops).is_some() {
        return None;
    }
    Some(ListedRoute {
        set,
        time: end.time,
    })
}

/// The customers that the stops serve, or `None` where they serve one twice.
fn served_once(inst: &Instance, stops: &[Stop]) -> Option<CustSet>
    requires few { length (customer_nodes inst.now) ≤ most_customers }
    requires known { AreKnown inst.now stops.now }
    ensures { result ≡ served_once inst.now [] stops.now }
{
    let mut set = CustSet::empty();
    for stop in stops {
        if let Some(number) = served_by(inst, *stop) {
            if set.has(number) {
                return None;
            }
            set = set.with(number);
        }
    }
    Some(set)
}

/// The number of the customer whom a stop serves, if it serves one.
fn served_by(inst: &Instance, stop: Stop) -> Option<usize>
    requires few { length (customer_nodes inst.now) ≤ most_customers }
    requires known { stop.node < node_count inst.now }
    ensures number { IsServedBy inst.now stop result }
    ensures small { IfSome result (λ number. number < 128) }
{
    if stop.via {
        return None;
    }
    inst.customer_number(stop.node)
}
