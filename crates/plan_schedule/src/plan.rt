//! The schedule of a plan, whole or of one route alone.

ghost use Rattle.std.specs.Prelude.{◌≡◌, ◌<◌, ◌≤◌, IfNone, IfOk, IfSome, length};
ghost use Rattle.std.specs.List.{All};
ghost use Rattle.ev_model.specs.Feasible.{IsFeasible};
ghost use Rattle.plan_check.specs.FleetRules.{stops_of};
ghost use Rattle.plan_schedule.specs.Schedules.{HasSmallTotals, IsTimed, only, route_schedule, route_schedules, schedule_of};
ghost use Rattle.route_plan.specs.Limits.{most_routes};

use crate::line::line;
use crate::schedule::{RouteSchedule, Schedule};
use crate::totals::{plan_totals, route_totals};
use crate::visits::visits;
use ev_list::Listed;
use ev_model::Stop;
use instance_reader::Instance;
use route_plan::{FleetPlan, RoutePlan};
use std::alloc::{AllocError, Global};

/// The schedule of a plan whose routes are feasible from a level at which each vehicle starts, as
/// those of each plan that [`plan_check::check_large`] accepts are from full. The only refusal is
/// want of memory.
pub fn schedule_plan(
    alloc: Global,
    inst: &Instance,
    start: u64,
    plan: &FleetPlan,
) -> Result<Schedule, AllocError>
    requires start { start ≤ inst.now.capacity }
    requires feasible { All (IsFeasible inst.now 1 start) (stops_of plan.now.routes) }
    requires few { length plan.now.routes ≤ most_routes }
    ensures value { IfOk result (λ s. s ≡ schedule_of inst.now start (stops_of plan.now.routes)) }
    ensures timed { IfOk result IsTimed }
{
    let routes = route_schedules(alloc, inst, start, plan.routes.as_slice())?;
    let totals = plan_totals(routes.as_slice());
    Ok(Schedule {
        denominator: inst.denominator(),
        full: inst.max_q(),
        reserve: inst.min_q(),
        home: inst.home_q(),
        limit: inst.scaled_limit(),
        routes: Listed::from_vec(routes),
        totals,
    })
}

/// The schedules of the routes of a plan.
fn route_schedules(
    alloc: Global,
    inst: &Instance,
    start: u64,
    plans: &[RoutePlan],
) -> Result<Vec<RouteSchedule>, AllocError>
    requires start { start ≤ inst.now.capacity }
    requires feasible { All (IsFeasible inst.now 1 start) (stops_of plans.now) }
    ensures value { IfOk result
        (λ v. v.items ≡ route_schedules inst.now start 0 (stops_of plans.now)) }
    ensures small { IfOk result (λ v. All HasSmallTotals v.items) }
{
    let mut routes = Vec::with_capacity(alloc, plans.len())?;
    for (number, plan) in plans.iter().enumerate() {
        let route = route_schedule(alloc, inst, start, number, plan.stops.as_slice())?;
        routes.push(route)?;
    }
    Ok(routes)
}

/// The schedule of a route that is feasible from this level.
fn route_schedule(
    alloc: Global,
    inst: &Instance,
    start: u64,
    number: usize,
    stops: &[Stop],
) -> Result<RouteSchedule, AllocError>
    requires start { start ≤ inst.now.capacity }
    requires feasible { IsFeasible inst.now 1 start stops.now }
    ensures value { IfOk result (λ r. r ≡ route_schedule inst.now start number stops.now) }
    ensures small { IfOk result HasSmallTotals }
{
    let _nodes = inst.nodes();
    let visits = visits(alloc, inst, start, stops)?;
    let _count = visits.len();
    let line = line(alloc, inst, visits.as_slice())?;
    let totals = route_totals(visits.as_slice());
    Ok(RouteSchedule {
        number,
        visits: Listed::from_vec(visits),
        line: Listed::from_vec(line),
        totals,
    })
}

/// The schedule of one route alone, beside the totals of the whole plan; `None` exactly where
/// there is no route of this number, counted from 0. It takes no memory.
pub fn only_route(schedule: Schedule, route: usize) -> Option<Schedule>
    ensures value { IfSome result (λ s. s ≡ only schedule route) }
    ensures some { IfSome result (λ _. route < length schedule.routes) }
    ensures timed { IsTimed schedule → IfSome result IsTimed }
    ensures none { IfNone result (length schedule.routes ≤ route) }
{
    let mut routes = schedule.routes.into_vec();
    if route >= routes.len() {
        return None;
    }
    routes.truncate(route + 1);
    routes.as_mut_slice().swap(0, route);
    routes.truncate(1);
    Some(Schedule {
        denominator: schedule.denominator,
        full: schedule.full,
        reserve: schedule.reserve,
        home: schedule.home,
        limit: schedule.limit,
        routes: Listed::from_vec(routes),
        totals: schedule.totals,
    })
}
