//! The parts of roots: routes and their shares.

ghost use Rattle.std.specs.Prelude.{◌≡◌, IfOk, map};
ghost use Rattle.std.specs.List.{All};
ghost use Rattle.price_loop.specs.Columns.{HasRoute};
ghost use Rattle.mixed_fleet.specs.Shares.{share_at};

use crate::searched::Searched;
use mixed_model::{MixedRoute, MixedShare};
use std::alloc::{AllocError, Global};

/// The shares of routes; the first `helpers` columns are helpers.
pub(crate) fn shares_of(
    alloc: Global,
    helpers: usize,
    routes: &[Searched],
    shares: &[(usize, u64)],
) -> Result<Vec<MixedShare>, AllocError>
    requires { All (HasRoute helpers routes.now) shares.now }
    ensures { IfOk result (λ found. found.items ≡ map (share_at helpers routes.now) shares.now) }
{
    let mut found = Vec::with_capacity(alloc, shares.len())?;
    for (column, share) in shares {
        let route = copy_of_route(alloc, &routes[*column - helpers].route)?;
        found.push(MixedShare {
            share: *share,
            route,
        })?;
    }
    Ok(found)
}

/// The routes without their customers and times.
pub(crate) fn columns_of(alloc: Global, routes: &[Searched]) -> Result<Vec<MixedRoute>, AllocError>
    ensures { IfOk result (λ columns. columns.items ≡ map (λ r. r.route) routes.now) }
{
    let mut columns = Vec::with_capacity(alloc, routes.len())?;
    for searched in routes {
        columns.push(copy_of_route(alloc, &searched.route)?)?;
    }
    Ok(columns)
}

/// The same route.
pub(crate) fn copy_of_route(alloc: Global, route: &MixedRoute) -> Result<MixedRoute, AllocError>
    ensures { IfOk result (λ copy. copy ≡ route.now) }
{
    Ok(MixedRoute {
        kind: route.kind,
        plan: route.plan.copy(alloc)?,
    })
}
