//! The order of the routes of a plan.

ghost use Rattle.std.specs.Prelude.{◌≡◌};
ghost use Rattle.std.specs.List.Sorted.{IsNonDecreasingBy, IsPermutation};
ghost use Rattle.set_partitioning.specs.FirstCustomers.{first_outside};

use ev_model::Stop;
use plan_check::HasStops;

/// Sorts the routes by the nodes of their first stops outside the depot that weren't inserted:
/// where each serves customers, and no other nodes, these are their first customers. It takes no
/// memory.
pub fn sort_by_first<R: HasStops>(routes: &mut Vec<R>)
    ensures same { IsPermutation routes.old.items routes.new.items }
    ensures order { IsNonDecreasingBy (λ r. first_outside (R.stops_of r)) routes.new.items }
{
    routes.sort_unstable_by_key(|route| first_outside(route.stops()));
}

/// The node of the first stop outside the depot that wasn't inserted, and 0 where there is none.
fn first_outside(stops: &[Stop]) -> usize
    ensures { result ≡ first_outside stops.now }
{
    for stop in stops {
        if !stop.via && stop.node != 0 {
            return stop.node;
        }
    }
    0
}
