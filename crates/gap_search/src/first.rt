//! The first plan: by ruin and recreate, or by moves of single customers.

ghost use Rattle.std.specs.Prelude.{◌≡◌, ◌≤◌, IfOk, IfSome, IsTrue, None, Some, option_map};
ghost use Rattle.ev_model.specs.Fleet.{IsFleetPlan, cost_of};
ghost use Rattle.gap_search.specs.After.{IsBegun};
ghost use Rattle.gap_search.specs.Gap as gap;
ghost use Rattle.plan_check.specs.FleetRules.{stops_of};
ghost use Rattle.route_improve.specs.Improved.{IsOrderly};
ghost use Rattle.ruin_recreate.specs.Recreated.{IsNoDearer};

use crate::bound::bound_milliseconds;
use crate::clock::{End, GapClock, Moving, Timed};
use crate::own::is_no_more_than_own;
use crate::plans::cost_of;
use crate::recreation::{Recreation, Work};
use crate::watcher::GapWatcher;
use instance_reader::Instance;
use route_improve::{Improved, improve_timed, improve_within};
use route_plan::FleetPlan;
use ruin_recreate::{Effort, RecreateWatcher, Recreated, SeenRoute, recreate};
use std::alloc::{AllocError, Global};

/// More customers a route than so many make routes long.
const LONG_ROUTE: usize = 20;

/// The first plan, and what was seen on the way to it.
#[derive(Drop)]
pub(crate) struct FirstPlan {
    /// The plan, or why none is held.
    pub(crate) plan: Improved,
    /// Routes that were seen. Nothing is promised of them.
    pub(crate) seen: Vec<SeenRoute>,
}

/// The first plan, or why none is held: where work is done for it, by ruin and recreate, which ends
/// with some moves of single customers, and else by these until none helps or the clock is up.
pub(crate) fn first_plan<C: GapClock, W: GapWatcher>(
    alloc: Global,
    inst: &Instance,
    start: Option<&FleetPlan>,
    recreation: Recreation,
    clock: &mut C,
    watcher: &mut W,
) -> Result<FirstPlan, AllocError>
    requires { IfSome start (λ plan. IsFleetPlan inst.now 1 (stops_of plan.now.routes)) }
    ensures { IfOk result
        (λ f. IsBegun inst.now (option_map (λ plan. plan.now.routes) start.entry) f.plan) }
{
    let mut seen = Vec::new(alloc);
    let plan = begun_plan(alloc, inst, start, recreation, &mut seen, clock, watcher)?;
    Ok(FirstPlan { plan, seen })
}

/// The first plan, or why none is held. The routes that are seen are added.
#[tactic(auto, using(crate::proofs::Outcomes::begun))]
fn begun_plan<C: GapClock, W: GapWatcher>(
    alloc: Global,
    inst: &Instance,
    start: Option<&FleetPlan>,
    recreation: Recreation,
    seen: &mut Vec<SeenRoute>,
    clock: &mut C,
    watcher: &mut W,
) -> Result<Improved, AllocError>
    requires { IfSome start (λ plan. IsFleetPlan inst.now 1 (stops_of plan.now.routes)) }
    ensures { IfOk result (IsBegun inst.now (option_map (λ plan. plan.now.routes) start.entry)) }
{
    let Some(work) = recreation.work(inst.customers().len()) else {
        let mut moving = Moving::until(clock, End::Before(0));
        return improve_timed(alloc, inst, start, &mut moving, watcher);
    };
    match start {
        Some(plan) => from_plan(
            alloc,
            inst,
            plan,
            work,
            recreation.seed,
            seen,
            clock,
            watcher,
        ),
        None => from_none(alloc, inst, work, recreation.seed, seen, clock, watcher),
    }
}

/// A plan that is made of this one, and no dearer.
#[tactic(auto, using(crate::proofs::Outcomes::begun_behind))]
fn from_plan<C: GapClock, W: GapWatcher>(
    alloc: Global,
    inst: &Instance,
    plan: &FleetPlan,
    work: Work,
    seed: u64,
    seen: &mut Vec<SeenRoute>,
    clock: &mut C,
    watcher: &mut W,
) -> Result<Improved, AllocError>
    requires { IsFleetPlan inst.now 1 (stops_of plan.now.routes) }
    ensures { IfOk result (IsBegun inst.now (Some plan.now.routes)) }
{
    let mut timed = Timed {
        clock,
        end: work.end,
        watcher,
    };
    let better = recreated(alloc, inst, plan, work.first, seed, seen, &mut timed)?;
    let better = more_work(alloc, inst, better, work.then, seed, seen, clock, watcher)?;
    Ok(Improved::Plan(better))
}

/// A plan, or the first customer without a route of his own.
fn from_none<C: GapClock, W: GapWatcher>(
    alloc: Global,
    inst: &Instance,
    work: Work,
    seed: u64,
    seen: &mut Vec<SeenRoute>,
    clock: &mut C,
    watcher: &mut W,
) -> Result<Improved, AllocError>
    ensures { IfOk result (IsBegun inst.now None) }
{
    let mut timed = Timed {
        clock,
        end: work.end,
        watcher,
    };
    let found = recreate(alloc, inst, None, work.first, seed, &mut timed)?;
    let Recreated {
        outcome,
        seen: others,
    } = found;
    add_all(seen, others)?;
    match outcome {
        Improved::Plan(plan) => {
            let plan = more_work(alloc, inst, plan, work.then, seed, seen, clock, watcher)?;
            no_dearer_than_own(alloc, inst, plan, clock, watcher)
        }
        Improved::Alone(node) => Ok(Improved::Alone(node)),
    }
}

/// A plan that is made of this one by ruin and recreate.
fn recreated<W: RecreateWatcher>(
    alloc: Global,
    inst: &Instance,
    plan: &FleetPlan,
    effort: Effort,
    seed: u64,
    seen: &mut Vec<SeenRoute>,
    watcher: &mut W,
) -> Result<FleetPlan, AllocError>
    requires { IsFleetPlan inst.now 1 (stops_of plan.now.routes) }
    ensures { IfOk result (IsNoDearer inst.now plan.now.routes) }
{
    let found = recreate(alloc, inst, Some(plan), effort, seed, watcher)?;
    let Recreated {
        outcome,
        seen: others,
    } = found;
    add_all(seen, others)?;
    match outcome {
        Improved::Plan(better) => Ok(better),
        // It comes only where there is no plan to begin with.
        Improved::Alone(_) => improve_within(alloc, inst, plan, 0),
    }
}

/// The plan once more work was done, where there is some, no routes are long, and as far as the
/// clock leaves time for a bound.
fn more_work<C: GapClock, W: GapWatcher>(
    alloc: Global,
    inst: &Instance,
    plan: FleetPlan,
    effort: Option<Effort>,
    seed: u64,
    seen: &mut Vec<SeenRoute>,
    clock: &mut C,
    watcher: &mut W,
) -> Result<FleetPlan, AllocError>
    requires { IsOrderly inst.now plan.routes }
    ensures { IfOk result (IsNoDearer inst.now plan.routes) }
{
    let Some(effort) = effort else {
        return Ok(plan);
    };
    let mut timed = Timed {
        clock,
        end: End::Before(bound_milliseconds(inst.customers().len())),
        watcher,
    };
    if timed.is_up() || are_long(inst, &plan) {
        return Ok(plan);
    }
    recreated(alloc, inst, &plan, effort, seed, seen, &mut timed)
}

/// Adds routes that were seen.
fn add_all(seen: &mut Vec<SeenRoute>, others: Vec<SeenRoute>) -> Result<(), AllocError> {
    for route in others {
        seen.push(route)?;
    }
    Ok(())
}

/// Whether routes serve more than twenty customers in the mean: these take long to charge.
fn are_long(inst: &Instance, plan: &FleetPlan) -> bool {
    inst.customers().len() > plan.routes.len().saturating_mul(LONG_ROUTE)
}

/// The plan; or one that moves make of routes for the customers alone, as far as the clock lets them,
/// where the plan is dearer than these.
#[tactic(auto, using(crate::proofs::Outcomes::begun))]
fn no_dearer_than_own<C: GapClock, W: GapWatcher>(
    alloc: Global,
    inst: &Instance,
    plan: FleetPlan,
    clock: &mut C,
    watcher: &mut W,
) -> Result<Improved, AllocError>
    requires { IsFleetPlan inst.now 1 (stops_of plan.routes) }
    ensures { IfOk result (IsBegun inst.now None) }
{
    if is_no_dearer_than_own(alloc, inst, &plan)? {
        return Ok(Improved::Plan(plan));
    }
    let mut moving = Moving::until(clock, End::Before(0));
    improve_timed(alloc, inst, None, &mut moving, watcher)
}

/// Whether a plan costs no more than routes for the customers alone, where each has one.
fn is_no_dearer_than_own(
    alloc: Global,
    inst: &Instance,
    plan: &FleetPlan,
) -> Result<bool, AllocError>
    ensures { IfOk result (λ is. IsTrue is
        → gap.IsNoDearer inst.now None (cost_of inst.now 1 (stops_of plan.now.routes))) }
{
    match cost_of(alloc, inst, plan)? {
        Some(cost) => is_no_more_than_own(alloc, inst, cost),
        None => Ok(false),
    }
}
