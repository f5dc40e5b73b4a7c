//! The answers of both solvers.

ghost use Rattle.std.specs.Prelude.{◌≤◌, IfSome};
ghost use Rattle.ev_model.specs.Route.{IsRoute};

use frvcp_labels::solve_route;
use instance_reader::{Instance, read_instance};
use level_table::solve_levels;
use route_plan::{RoutePlan, read_route, walk};
use std::alloc::Global;

/// The instance of a text, with another limit if one is given.
pub(crate) fn instance_of(alloc: Global, text: &str, limit: Option<u64>) -> Option<Instance> {
    let inst = read_instance(alloc, text.as_bytes()).ok()?;
    match limit {
        Some(limit) => inst.with_limit(limit).ok(),
        None => Some(inst),
    }
}

/// The route of a word, where a vehicle may start on it from this level.
pub(crate) fn route_of(alloc: Global, inst: &Instance, word: &str, start: u64) -> Option<Vec<usize>>
    ensures route { IfSome result (λ route. IsRoute inst.now route.items) }
    ensures start { IfSome result (λ route. start ≤ inst.now.capacity) }
{
    if start > inst.max_q() {
        return None;
    }
    read_route(alloc, word, inst).ok()
}

/// How long a plan takes, scaled.
fn time(inst: &Instance, start: u64, plan: Option<RoutePlan>) -> Option<u64> {
    let plan = plan?;
    Some(walk(inst, start, plan.stops.as_slice()).ok()?.time)
}

/// How long the plans by the table and by labels take, each `None` where there is none.
pub(crate) fn both_times(
    alloc: Global,
    inst: &Instance,
    word: &str,
    start: u64,
) -> Option<(Option<u64>, Option<u64>)> {
    let route = route_of(alloc, inst, word, start)?;
    let by_table = solve_levels(alloc, inst, route.as_slice(), start).ok()?;
    let by_labels = solve_route(alloc, inst, route.as_slice(), start).ok()?;
    Some((time(inst, start, by_table), time(inst, start, by_labels)))
}
