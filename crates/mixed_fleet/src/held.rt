//! Plans that may be held.

ghost use Rattle.std.specs.Prelude.{◌≡◌, ◌<◌, IfOk, length};
ghost use Rattle.std.specs.List.{All};
ghost use Rattle.instance_reader.specs.Instance.{customer_nodes};
ghost use Rattle.mixed_model.specs.Kinds.{first_of};
ghost use Rattle.mixed_fleet.specs.Fleets.{AreFleetKinds};
ghost use Rattle.mixed_fleet.specs.Held.{cost_at, MayHold, routes_at};
ghost use Rattle.mixed_fleet.specs.Own.{AreOwnOf};
ghost use Rattle.mixed_fleet.specs.Plans.{CostsNoMoreThanOwn};
ghost use Rattle.mixed_fleet.specs.Searched.{total_time};

use crate::listed::columns_of;
use crate::own::OwnRoutes;
use crate::searched::Searched;
use ev_list::Listed;
use instance_reader::Instance;
use mixed_model::{MixedRoute, check_mixed_plan};
use set_partitioning::sort_by_first;
use std::alloc::{AllocError, Global};

/// A plan with its scaled cost.
#[derive(Drop)]
pub(crate) struct Held {
    pub(crate) routes: Listed<MixedRoute>,
    pub(crate) cost: u128,
}

/// The cost of the plan that is held.
pub(crate) fn cost_of(held: &Option<Held>) -> Option<u128>
    ensures { result ≡ cost_at held.now }
{
    match held {
        Some(held) => Some(held.cost),
        None => None,
    }
}

/// The routes of the plan that is held.
pub(crate) fn routes_of(held: Option<Held>) -> Option<Listed<MixedRoute>>
    ensures { result ≡ routes_at held }
{
    match held {
        Some(held) => Some(held.routes),
        None => None,
    }
}

/// The plan of the fastest routes of customers alone; `None` exactly where some customer has none.
pub(crate) fn own_plan(
    alloc: Global,
    kinds: &[Instance],
    own: &OwnRoutes,
) -> Result<Option<Held>, AllocError>
    requires fleet { AreFleetKinds kinds.now }
    requires own { AreOwnOf kinds.now
        (customer_nodes (first_of kinds.now)) (customer_nodes (first_of kinds.now)) own.now }
    ensures held { IfOk result (MayHold kinds.now) }
    ensures own { IfOk result (λ held. CostsNoMoreThanOwn kinds.now (routes_at held)) }
{
    let _customers = kinds[0].customers();
    if !own.whole {
        return Ok(None);
    }
    let routes = columns_of(alloc, &own.routes)?;
    Ok(Some(Held {
        routes: Listed::from_vec(routes),
        cost: total_time(&own.routes),
    }))
}

/// The sum of the scaled times of routes.
fn total_time(routes: &[Searched]) -> u128
    ensures { result ≡ total_time routes.now }
{
    let mut total = 0;
    for route in routes {
        total += u128::from(route.time);
    }
    total
}

/// The cheaper plan: the one that is held, or these routes in rising order of their first
/// customers, where they are a plan.
pub(crate) fn cheaper(
    kinds: &[Instance],
    held: Option<Held>,
    routes: Vec<MixedRoute>,
) -> Option<Held>
    requires fleet { AreFleetKinds kinds.now }
    requires known { All (λ r. r.kind < length kinds.now) routes.items }
    requires held { MayHold kinds.now held }
    requires own { CostsNoMoreThanOwn kinds.now (routes_at held) }
    ensures held { MayHold kinds.now result }
    ensures own { CostsNoMoreThanOwn kinds.now (routes_at result) }
{
    match (plan_of(kinds, routes), held) {
        (Some(found), Some(before)) => {
            if found.cost < before.cost {
                Some(found)
            } else {
                Some(before)
            }
        }
        (Some(found), None) => Some(found),
        (None, held) => held,
    }
}

/// The routes in rising order of their first customers, where they are a plan.
fn plan_of(kinds: &[Instance], mut routes: Vec<MixedRoute>) -> Option<Held>
    requires fleet { AreFleetKinds kinds.now }
    requires known { All (λ r. r.kind < length kinds.now) routes.items }
    ensures { MayHold kinds.now result }
{
    sort_by_first(&mut routes);
    let Ok(cost) = check_mixed_plan(kinds, &routes) else {
        return None;
    };
    Some(Held {
        routes: Listed::from_vec(routes),
        cost,
    })
}
