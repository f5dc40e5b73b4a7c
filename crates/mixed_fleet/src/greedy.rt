//! A plan out of routes that are taken greedily.

ghost use Rattle.std.specs.Prelude.{◌<◌, ◌≤◌, IfOk, length};
ghost use Rattle.std.specs.List.{All};
ghost use Rattle.instance_reader.specs.Instance.{customer_nodes, most_customers};
ghost use Rattle.mixed_fleet.specs.Fleets.{AreFleetKinds};
ghost use Rattle.mixed_fleet.specs.Proofs.{IsBestProof};

use crate::listed::copy_of_route;
use customer_sets::CustSet;
use instance_reader::Instance;
use mixed_model::{MixedProof, MixedRoot, MixedRoute, MixedShare};
use std::alloc::{AllocError, Global};

/// Routes that were taken, and the customers whom they serve. Which routes these are is a guide; a
/// judge says whether they are a plan.
#[derive(Drop)]
struct Taken {
    routes: Vec<MixedRoute>,
    served: CustSet,
}

/// Routes taken one after another, each where it serves nobody whom one before it serves: those of
/// an exact root, the greatest share first, and then those of customers alone.
pub(crate) fn greedy_routes(
    alloc: Global,
    kinds: &[Instance],
    proof: &MixedProof,
    alone: &[MixedRoute],
) -> Result<Vec<MixedRoute>, AllocError>
    requires fleet { AreFleetKinds kinds.now }
    requires proof { IsBestProof kinds.now proof.now }
    requires alone { All (λ r. r.kind < length kinds.now) alone.now }
    ensures { IfOk result (λ routes. All (λ r. r.kind < length kinds.now) routes.items) }
{
    let mut taken = Taken {
        routes: Vec::new(alloc),
        served: CustSet::empty(),
    };
    let inst = &kinds[0];
    if let MixedRoot::Exact { over: _, shares } = &proof.root {
        take_shares(alloc, inst, kinds.len(), &mut taken, shares.as_slice())?;
    }
    take_all(alloc, inst, kinds.len(), &mut taken, alone)?;
    Ok(taken.routes)
}

/// Takes the routes with shares, the greatest share first, each where it serves nobody whom one
/// before it serves. The routes are of so many kinds.
fn take_shares(
    alloc: Global,
    inst: &Instance,
    kinds: usize,
    taken: &mut Taken,
    shares: &[MixedShare],
) -> Result<(), AllocError>
    requires few { length (customer_nodes inst.now) ≤ most_customers }
    requires shares { All (λ x. x.route.kind < kinds) shares.now }
    requires taken { All (λ r. r.kind < kinds) taken.old.routes.items }
    ensures { All (λ r. r.kind < kinds) taken.new.routes.items }
{
    for (_, at) in &by_share(alloc, shares)? {
        if let Some(x) = shares.get(*at) {
            take(alloc, inst, kinds, taken, &x.route)?;
        }
    }
    Ok(())
}

/// The places of the shares, the greatest share first.
fn by_share(alloc: Global, shares: &[MixedShare]) -> Result<Vec<(u64, usize)>, AllocError> {
    let mut order = Vec::with_capacity(alloc, shares.len())?;
    for (at, x) in shares.iter().enumerate() {
        order.push((u64::MAX - x.share, at))?;
    }
    order.sort_unstable();
    Ok(order)
}

/// Takes the routes, each where it serves nobody whom one before it serves.
fn take_all(
    alloc: Global,
    inst: &Instance,
    kinds: usize,
    taken: &mut Taken,
    routes: &[MixedRoute],
) -> Result<(), AllocError>
    requires few { length (customer_nodes inst.now) ≤ most_customers }
    requires routes { All (λ r. r.kind < kinds) routes.now }
    requires taken { All (λ r. r.kind < kinds) taken.old.routes.items }
    ensures { All (λ r. r.kind < kinds) taken.new.routes.items }
{
    for route in routes {
        take(alloc, inst, kinds, taken, route)?;
    }
    Ok(())
}

/// Takes the route where it serves nobody who is served.
fn take(
    alloc: Global,
    inst: &Instance,
    kinds: usize,
    taken: &mut Taken,
    route: &MixedRoute,
) -> Result<(), AllocError>
    requires few { length (customer_nodes inst.now) ≤ most_customers }
    requires route { route.now.kind < kinds }
    requires taken { All (λ r. r.kind < kinds) taken.old.routes.items }
    ensures { All (λ r. r.kind < kinds) taken.new.routes.items }
{
    let (served, free) = with_customers(inst, taken.served, route);
    if free {
        taken.routes.push(copy_of_route(alloc, route)?)?;
        taken.served = served;
    }
    Ok(())
}

/// The set with the customers of a route, and whether none of these was in it.
fn with_customers(inst: &Instance, served: CustSet, route: &MixedRoute) -> (CustSet, bool)
    requires { length (customer_nodes inst.now) ≤ most_customers }
{
    let mut set = served;
    let mut free = true;
    for stop in route.plan.stops.as_slice() {
        if !stop.via && stop.node < inst.nodes() {
            if let Some(number) = inst.customer_number(stop.node) {
                free = free && !served.has(number);
                set = set.with(number);
            }
        }
    }
    (set, free)
}
