//! Routes of a fleet, each for its kind, as listed routes.

ghost use Rattle.std.specs.Prelude.{◌<◌, ◌≤◌, IfNone, IfOk, IfSome, length, option_map};
ghost use Rattle.std.specs.List.{All};
ghost use Rattle.instance_reader.specs.Instance.{customer_nodes, most_customers};
ghost use Rattle.mixed_model.specs.Tellings.{IsListedIn, TellsColumns, TellsShares};
ghost use Rattle.mixed_model.specs.Covers.{IsKindRoute};
ghost use Rattle.mixed_model.specs.Kinds.{AreKinds, first_of};
ghost use Rattle.mixed_model.specs.Meaning.{kind_plan};
ghost use Rattle.mixed_model.specs.Ranges.{RouteFits, ShareFits};

use crate::{MixedRoute, MixedShare};
use certificate_check::{ListedRoute, SharedRoute, fleet_route};
use instance_reader::Instance;
use std::alloc::{AllocError, Global};

/// The plans as listed routes with their shares, or none where one of them is no route of a fleet
/// for its kind.
pub(crate) fn shared_routes(
    alloc: Global,
    kinds: &[Instance],
    shares: &[MixedShare],
) -> Result<Option<Vec<SharedRoute>>, AllocError>
    requires kinds { AreKinds kinds.now }
    requires few { length (customer_nodes (first_of kinds.now)) ≤ most_customers }
    requires shares { All (ShareFits (length kinds.now)) shares.now }
    ensures { IfOk result (λ routes.
        TellsShares kinds.now shares.now (option_map (λ v. v.items) routes)) }
{
    let mut routes = Vec::new(alloc);
    for share in shares {
        let Some(route) = route_of_kind(kinds, &share.route) else {
            return Ok(None);
        };
        routes.push(SharedRoute {
            share: share.share,
            route,
        })?;
    }
    Ok(Some(routes))
}

/// The columns as listed routes, or none where one of them is no route of a fleet for its kind.
pub(crate) fn listed_routes(
    alloc: Global,
    kinds: &[Instance],
    columns: &[MixedRoute],
) -> Result<Option<Vec<ListedRoute>>, AllocError>
    requires kinds { AreKinds kinds.now }
    requires few { length (customer_nodes (first_of kinds.now)) ≤ most_customers }
    requires columns { All (RouteFits (length kinds.now)) columns.now }
    ensures { IfOk result (λ routes.
        TellsColumns kinds.now columns.now (option_map (λ v. v.items) routes)) }
{
    let mut routes = Vec::new(alloc);
    for column in columns {
        let Some(route) = route_of_kind(kinds, column) else {
            return Ok(None);
        };
        routes.push(route)?;
    }
    Ok(Some(routes))
}

/// The customers of a route, and its scaled time as a vehicle of its kind drives it; `None` exactly
/// where it is no route of a fleet for that kind.
fn route_of_kind(kinds: &[Instance], route: &MixedRoute) -> Option<ListedRoute>
    requires kinds { AreKinds kinds.now }
    requires few { length (customer_nodes (first_of kinds.now)) ≤ most_customers }
    requires known { route.now.kind < length kinds.now }
    ensures listed { IfSome result (IsListedIn kinds.now route.now) }
    ensures none { IfNone result (IsKindRoute kinds.now 1 (kind_plan route.now) → ⊥) }
{
    fleet_route(&kinds[route.kind], route.plan.stops.as_slice())
}
