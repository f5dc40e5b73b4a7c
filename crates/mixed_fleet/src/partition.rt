//! A plan out of the routes that were met in the price loop, which serve each customer once (set
//! partitioning).

ghost use Rattle.std.specs.Prelude.{◌≡◌, ◌<◌, IfOk, length};
ghost use Rattle.std.specs.List.{All};
ghost use Rattle.mixed_fleet.specs.Fleets.{AreFleetKinds};
ghost use Rattle.mixed_fleet.specs.Held.{MayHold, routes_at};
ghost use Rattle.mixed_fleet.specs.Plans.{CostsNoMoreThanOwn};
ghost use Rattle.mixed_fleet.specs.Searched.{IsSearched};

use crate::held::{Held, cheaper, cost_of};
use crate::listed::copy_of_route;
use crate::searched::Searched;
use instance_reader::Instance;
use mixed_model::{MixedProof, MixedRoute};
use set_partitioning::{Candidate, find_partition, room_below};
use std::alloc::{AllocError, Global};

/// How many routes may be looked at for a plan.
const LOOKS: u64 = 20_000_000;

/// The cheaper plan: the one that is held, or one of the routes that were met, where one that costs
/// less is found. The prices of the proof tell which routes are worth it.
pub(crate) fn with_met(
    alloc: Global,
    kinds: &[Instance],
    held: Option<Held>,
    proof: &MixedProof,
    met: &[Searched],
) -> Result<Option<Held>, AllocError>
    requires fleet { AreFleetKinds kinds.now }
    requires met { All (IsSearched kinds.now) met.now }
    requires held { MayHold kinds.now held }
    requires own { CostsNoMoreThanOwn kinds.now (routes_at held) }
    ensures held { IfOk result (MayHold kinds.now) }
    ensures own { IfOk result (λ held. CostsNoMoreThanOwn kinds.now (routes_at held)) }
{
    let room = room_below(cost_of(&held), proof.weight, proof.prices.as_slice());
    if room < i128::from(proof.weight) {
        return Ok(held);
    }
    let candidates = candidates_of(alloc, kinds, proof, met)?;
    let customers = kinds[0].customers().len();
    let Some(places) = find_partition(alloc, &candidates, customers, room, LOOKS)? else {
        return Ok(held);
    };
    let routes = routes_at(alloc, kinds, met, &places)?;
    Ok(cheaper(kinds, held, routes))
}

/// The routes that were met, by place: whom each serves, and as its excess its time times the
/// weight, less the prices of its customers.
fn candidates_of(
    alloc: Global,
    kinds: &[Instance],
    proof: &MixedProof,
    met: &[Searched],
) -> Result<Vec<Candidate>, AllocError>
    requires fleet { AreFleetKinds kinds.now }
    requires met { All (IsSearched kinds.now) met.now }
    ensures { IfOk result (λ candidates. length candidates.items ≡ length met.now) }
{
    let _kinds = kinds;
    let mut candidates = Vec::with_capacity(alloc, met.len())?;
    for route in met {
        candidates.push(candidate_of(proof, route))?;
    }
    Ok(candidates)
}

/// The route as a candidate.
fn candidate_of(proof: &MixedProof, route: &Searched) -> Candidate
    requires { All (λ c. c < 128) route.now.numbers }
{
    let mut candidate = Candidate::at_cost(route.time, proof.weight);
    for number in route.numbers.as_slice() {
        candidate = candidate.serving(*number, proof.prices.as_slice());
    }
    candidate
}

/// The routes at these places.
fn routes_at(
    alloc: Global,
    kinds: &[Instance],
    met: &[Searched],
    places: &[usize],
) -> Result<Vec<MixedRoute>, AllocError>
    requires met { All (IsSearched kinds.now) met.now }
    requires places { All (λ at. at < length met.now) places.now }
    ensures { IfOk result (λ routes. All (λ r. r.kind < length kinds.now) routes.items) }
{
    let _kinds = kinds;
    let mut routes = Vec::with_capacity(alloc, places.len())?;
    for at in places {
        routes.push(copy_of_route(alloc, &met[*at].route)?)?;
    }
    Ok(routes)
}
