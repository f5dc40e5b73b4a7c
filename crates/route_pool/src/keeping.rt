//! Which routes keep a node's pairs.

ghost use Rattle.std.specs.Prelude.{◌≡◌, ◌≤◌, ◌<◌, ◌↔◌, ◌∷◌, ◌++◌, [], IsTrue, length, map, true};
ghost use Rattle.std.specs.List.{All};
ghost use Rattle.customer_sets.specs.Pairs.{allows_of};
ghost use Rattle.ev_model.specs.Network.{is_customer, node_count};
ghost use Rattle.fleet_model.specs.Pairs.{KeepsPairs};
ghost use Rattle.fleet_model.specs.Places.{place_of};
ghost use Rattle.instance_reader.specs.Instance.{customer_nodes, most_customers};

use customer_sets::Pairs;
use instance_reader::Instance;

/// Whether a route that serves the customers at these nodes in this order keeps the pairs. It takes
/// no memory.
pub fn keeps_pairs(inst: &Instance, pairs: &Pairs, order: &[usize]) -> bool
    requires few { length (customer_nodes inst.now) ≤ most_customers }
    requires pairs { pairs.now.customers ≡ length (customer_nodes inst.now) }
    requires known { All (λ node. node < node_count inst.now) order.now }
    ensures { IsTrue result ↔
        KeepsPairs (allows_of pairs.now) (0 ∷ map (place_of inst.now) order.now ++ 0 ∷ []) }
{
    let mut before = 0;
    for node in order {
        let place = place_of(inst, *node);
        if !pairs.allows(before, place) {
            return false;
        }
        before = place;
    }
    pairs.allows(before, 0)
}

/// The place of a node on a route, which the definitions of bounds tell by a count.
#[tactic(auto, using(closed_lists::proofs::RoutePlaces::placed))]
fn place_of(inst: &Instance, node: usize) -> usize
    requires known { node < node_count inst.now }
    ensures value { result ≡ place_of inst.now node }
    ensures within { result ≤ length (customer_nodes inst.now) }
{
    inst.place_of(node)
}
