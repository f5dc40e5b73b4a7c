//! Routes that are taken greedily.

ghost use Rattle.std.specs.Prelude.{◌≡◌, map, IfOk, OnOk};
ghost use Rattle.std.specs.List.Sorted.{IsNonDecreasingBy, IsPermutation};
ghost use Rattle.ev_fleet.specs.Greedy.{AreGreedy, meet, meets_any, rank, routes_at, visits, with_all_apart, with_apart};

use crate::held::Held;
use bound_certificate::Share;
use route_plan::RoutePlan;
use std::alloc::{AllocError, Global};

/// The routes of the plan that is held.
pub(crate) fn routes_at(held: &Option<Held>) -> &[RoutePlan]
    ensures { result.now ≡ routes_at held.now }
{
    match held {
        Some(held) => held.plan.routes.as_slice(),
        None => &[],
    }
}

/// Routes that are taken greedily: those with shares, the greatest shares first, and then the
/// others, each where it serves no customer that is served already.
pub(crate) fn greedy_routes(
    alloc: Global,
    shares: &[Share],
    others: &[RoutePlan],
) -> Result<Vec<RoutePlan>, AllocError>
    ensures { IfOk result (λ routes. AreGreedy shares.now others.now routes.items) }
{
    let mut sorted = copies_of(alloc, shares)?;
    sort_by_share(&mut sorted);
    let mut routes = Vec::new(alloc);
    add_shares(alloc, &mut routes, sorted.as_slice())?;
    add_routes(alloc, &mut routes, others)?;
    Ok(routes)
}

/// The same shares.
fn copies_of(alloc: Global, shares: &[Share]) -> Result<Vec<Share>, AllocError>
    ensures { IfOk result (λ copies. copies.items ≡ shares.now) }
{
    let mut copies = Vec::with_capacity(alloc, shares.len())?;
    for share in shares {
        copies.push(Share {
            share: share.share,
            plan: share.plan.copy(alloc)?,
        })?;
    }
    Ok(copies)
}

/// Sorts by falling shares.
fn sort_by_share(shares: &mut Vec<Share>)
    ensures same { IsPermutation shares.old.items shares.new.items }
    ensures order { IsNonDecreasingBy rank shares.new.items }
{
    shares.sort_unstable_by_key(|share| u64::MAX.saturating_sub(share.share));
}

/// Takes those routes of the shares that meet none that was taken.
fn add_shares(
    alloc: Global,
    routes: &mut Vec<RoutePlan>,
    shares: &[Share],
) -> Result<(), AllocError>
    ensures { OnOk result
        (routes.new.items ≡ with_all_apart routes.old.items (map (λ x. x.plan) shares.now)) }
{
    for share in shares {
        add_apart(alloc, routes, &share.plan)?;
    }
    Ok(())
}

/// Takes those of the routes that meet none that was taken.
fn add_routes(
    alloc: Global,
    routes: &mut Vec<RoutePlan>,
    others: &[RoutePlan],
) -> Result<(), AllocError>
    ensures { OnOk result (routes.new.items ≡ with_all_apart routes.old.items others.now) }
{
    for route in others {
        add_apart(alloc, routes, route)?;
    }
    Ok(())
}

/// Takes the route where it meets none that was taken.
fn add_apart(
    alloc: Global,
    routes: &mut Vec<RoutePlan>,
    route: &RoutePlan,
) -> Result<(), AllocError>
    ensures { OnOk result (routes.new.items ≡ with_apart routes.old.items route.now) }
{
    if !meets_any(routes.as_slice(), route) {
        routes.push(route.copy(alloc)?)?;
    }
    Ok(())
}

/// Whether some of the routes meets this one.
fn meets_any(routes: &[RoutePlan], route: &RoutePlan) -> bool
    ensures { result ≡ meets_any routes.now route.now }
{
    for other in routes {
        if meet(other, route) {
            return true;
        }
    }
    false
}

/// Whether both stop at the same node outside the depot, neither as a stop that was inserted.
fn meet(plan: &RoutePlan, other: &RoutePlan) -> bool
    ensures { result ≡ meet plan.now.stops other.now.stops }
{
    let stops = plan.stops.as_slice();
    for stop in stops {
        if !stop.via && stop.node != 0 && visits(stop.node, other) {
            return true;
        }
    }
    false
}

/// Whether a stop that wasn't inserted is at the node.
fn visits(node: usize, plan: &RoutePlan) -> bool
    ensures { result ≡ visits node plan.now.stops }
{
    let stops = plan.stops.as_slice();
    for stop in stops {
        if !stop.via && stop.node == node {
            return true;
        }
    }
    false
}
