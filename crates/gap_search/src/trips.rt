//! Fastest plans of routes by the order of their customers.

ghost use Rattle.std.specs.Prelude.{◌≡◌, ◌∷◌, ◌++◌, [], true, IfOk};
ghost use Rattle.gap_search.specs.Inner.{AreInner};

use frvcp_labels::solve_route;
use instance_reader::Instance;
use route_plan::{RoutePlan, walk};
use std::alloc::{AllocError, Global};

/// A fastest plan that serves customers at these nodes in this order, if there is one. Nothing is
/// promised of it; the only `Err` is want of memory.
pub fn fastest_plan(
    alloc: Global,
    inst: &Instance,
    inner: &[usize],
) -> Result<Option<RoutePlan>, AllocError> {
    // That there is a depot is told by this call.
    let _nodes = inst.nodes();
    if !are_inner(inst, 0, inner) {
        return Ok(None);
    }
    let route = round_trip(alloc, inner)?;
    solve_route(alloc, inst, &route, inst.max_q())
}

/// The scaled time of a plan from full, if it can be driven.
pub(crate) fn time_of(inst: &Instance, plan: &RoutePlan) -> Option<u64> {
    match walk(inst, inst.max_q(), plan.stops.as_slice()) {
        Ok(end) => Some(end.time),
        Err(_) => None,
    }
}

/// Whether these nodes may stand behind a node on a route, before the depot.
fn are_inner(inst: &Instance, before: usize, inner: &[usize]) -> bool
    ensures { result ≡ true → AreInner inst.now before inner.now }
{
    match inner {
        [] => before != 0,
        [node, rest @ ..] => {
            *node < inst.nodes() && *node != 0 && *node != before && are_inner(inst, *node, rest)
        }
    }
}

/// The nodes between two visits to the depot.
fn round_trip(alloc: Global, inner: &[usize]) -> Result<Vec<usize>, AllocError>
    ensures { IfOk result (λ route. route.items ≡ 0 ∷ inner.now ++ 0 ∷ []) }
{
    let mut route = Vec::with_capacity(alloc, inner.len())?;
    route.push(0)?;
    route.extend_from_slice(inner)?;
    route.push(0)?;
    Ok(route)
}
