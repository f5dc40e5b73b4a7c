//! What the loop leaves in the pool.

ghost use Rattle.std.specs.List.{All};
ghost use Rattle.route_pool.specs.Pool.{IsGrown, IsPool};
ghost use Rattle.column_pool.specs.Nodes.{IsColumnOf};

use crate::route::NodeRoute;
use instance_reader::Instance;
use route_pool::ColumnPool;
use std::alloc::{AllocError, Global};

/// Takes the routes into the pool, as far as they are new or faster.
pub(crate) fn take_all(
    alloc: Global,
    inst: &Instance,
    pool: &mut ColumnPool,
    routes: &[NodeRoute],
) -> Result<(), AllocError>
    requires routes { All (IsColumnOf inst.now) routes.now }
    requires pool { IsPool inst.now pool.old }
    ensures pool { IsPool inst.now pool.new }
    ensures grown { IsGrown inst.now pool.old pool.new }
{
    for route in routes {
        take_in(alloc, inst, pool, route)?;
    }
    Ok(())
}

/// Takes the route into the pool, where it is new or faster.
fn take_in(
    alloc: Global,
    inst: &Instance,
    pool: &mut ColumnPool,
    route: &NodeRoute,
) -> Result<(), AllocError>
    requires route { IsColumnOf inst.now route.now }
    requires pool { IsPool inst.now pool.old }
    ensures pool { IsPool inst.now pool.new }
    ensures grown { IsGrown inst.now pool.old pool.new }
{
    if is_known(pool, route) {
        return Ok(());
    }
    let plan = route.plan.copy(alloc)?;
    pool.put(alloc, inst, route.order.as_slice(), plan)
}

/// Whether the pool has a route of the order that takes no longer, by the time that it has noted.
fn is_known(pool: &ColumnPool, route: &NodeRoute) -> bool {
    let Some(at) = pool.place(route.order.as_slice()) else {
        return false;
    };
    match pool.route(at) {
        Some((_, pooled)) => pooled.time <= route.time,
        None => false,
    }
}

/// The places in the pool of the routes with these numbers of columns, where the first `helpers`
/// columns have none. They are a guide for the next node, and nothing rests on them.
pub(crate) fn places_of(
    alloc: Global,
    helpers: usize,
    pool: &ColumnPool,
    routes: &[NodeRoute],
    basis: &[usize],
) -> Result<Vec<usize>, AllocError> {
    let mut places = Vec::with_capacity(alloc, basis.len())?;
    for column in basis {
        if let Some(at) = place_of(helpers, pool, routes, *column) {
            places.push(at)?;
        }
    }
    Ok(places)
}

/// The place in the pool of the route of a column.
fn place_of(
    helpers: usize,
    pool: &ColumnPool,
    routes: &[NodeRoute],
    column: usize,
) -> Option<usize> {
    let route = routes.get(column.checked_sub(helpers)?)?;
    pool.place(route.order.as_slice())
}
