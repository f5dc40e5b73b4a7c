//! All that a vehicle may come to on its way along a route.

ghost use Rattle.std.specs.Prelude.{◌≤◌, IfOk};
ghost use Rattle.std.specs.List.{All};
ghost use Rattle.ev_model.specs.Network.{IsNetwork};
ghost use Rattle.ev_model.specs.Route.{IsRoute};
ghost use Rattle.frvcp_labels.specs.Listing.{HoldAll, IsStateOnWay};

use crate::rest::Rest;
use crate::trip::Trip;
use instance_reader::Instance;
use route_steps::{State, station_nodes};
use std::alloc::{AllocError, Global};

/// States that take in all that a vehicle may come to on its way along the route, if it starts with
/// the charge `start`, in units of charge, and drives within the limit, also where no way home is
/// left or a faster one is known. Their times are scaled.
///
/// With a stop home from one of them ends a way that takes no less time than some plan of the
/// route.
pub fn reachable_states(
    alloc: Global,
    inst: &Instance,
    route: &[usize],
    start: u64,
) -> Result<Vec<State>, AllocError>
    requires route { IsRoute inst.now route.now }
    requires start { start ≤ inst.now.capacity }
    ensures on_way { IfOk result (λ states. All (IsStateOnWay
        (record { network = inst.now; route = route.now; start = start })) states.items) }
    ensures all { IfOk result (λ states. HoldAll
        (record { network = inst.now; route = route.now; start = start }) states.items) }
    ensures network { IsNetwork inst.now }
{
    let stations = station_nodes(alloc, inst)?;
    let rest = Rest::new(alloc, inst, route, &stations)?;
    let trip = Trip {
        inst,
        route,
        stations: &stations,
        start,
        rest: &rest,
    };
    let (mut pool, mut full) = trip.begin(alloc)?;
    trip.settle_all(alloc, &mut pool, full.as_mut_slice())?;
    trip.live_states(alloc, &pool)
}
