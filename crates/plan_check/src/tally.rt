//! How often the routes of a plan serve each customer.

ghost use Rattle.std.specs.Prelude.{◌≡◌, ◌<◌, ◌≤◌, ◌++◌, [], ◌∷◌, ℕ, List, length, map, slice_get, Some};
ghost use Rattle.ev_model.specs.Fleet.{all_customers, customers_of};
ghost use Rattle.ev_model.specs.Network.{node_count};
ghost use Rattle.instance_reader.specs.Instance.{customer_nodes};
ghost use Rattle.plan_check.specs.LaterRules.{plans_by};
ghost use Rattle.plan_check.specs.Tallies.{AllKnown, AreKnown, Tallies};

use crate::has_stops::HasStops;
use ev_model::Stop;
use instance_reader::Instance;

/// Counts how often the routes serve each customer, by the customers' numbers; a count ends at 255.
/// It takes no memory.
pub(crate) fn count_visits<R: HasStops>(inst: &Instance, routes: &[R], visits: &mut [u8])
    requires room { length (customer_nodes inst.now) ≤ length visits.old }
    requires known { AllKnown inst.now (plans_by R.stops_of routes.now) }
    ensures { Tallies inst.now visits.new (all_customers inst.now (map R.stops_of routes.now)) }
{
    visits.fill(0);
    for plan in routes {
        count_route(inst, plan.stops(), visits);
    }
}

/// Counts the customers that the stops of a route serve.
fn count_route(inst: &Instance, stops: &[Stop], visits: &mut [u8])
    requires room { length (customer_nodes inst.now) ≤ length visits.old }
    requires known { AreKnown inst.now stops.now }
    ensures { (nodes : List ℕ) → Tallies inst.now visits.old nodes →
        Tallies inst.now visits.new (nodes ++ customers_of inst.now stops.now) }
{
    for stop in stops {
        count_stop(inst, *stop, visits);
    }
}

/// Counts the customer that a stop serves, if it serves one.
fn count_stop(inst: &Instance, stop: Stop, visits: &mut [u8])
    requires room { length (customer_nodes inst.now) ≤ length visits.old }
    requires known { stop.node < node_count inst.now }
    ensures { (nodes : List ℕ) → Tallies inst.now visits.old nodes →
        Tallies inst.now visits.new (nodes ++ customers_of inst.now (stop ∷ [])) }
{
    if stop.via {
        return;
    }
    if let Some(number) = inst.customer_number(stop.node) {
        count_customer(inst, number, visits);
    }
}

/// Counts the customer of this number once more.
#[tactic(auto, using(crate::proofs::VisitCounts::tallies_customer))]
fn count_customer(inst: &Instance, number: usize, visits: &mut [u8])
    requires room { length (customer_nodes inst.now) ≤ length visits.old }
    requires within { number < length (customer_nodes inst.now) }
    ensures { (nodes : List ℕ) (node : ℕ) →
        slice_get (customer_nodes inst.now) number ≡ Some node →
        Tallies inst.now visits.old nodes →
        Tallies inst.now visits.new (nodes ++ node ∷ []) }
{
    visits[number] = visits[number].saturating_add(1);
}
