//! Fleet plans that are made cheaper.

ghost use Rattle.std.specs.Prelude.{◌≡◌, ◌≤◌, None, IfOk, IfSome, option_map};
ghost use Rattle.ev_model.specs.Fleet.{IsFleetPlan, cost_of};
ghost use Rattle.plan_check.specs.FleetRules.{stops_of};
ghost use Rattle.route_improve.specs.Improved.{IsAnswer, IsMoved, IsTimedAnswer};
ghost use Rattle.route_improve.specs.Routes.{AreRoutes, cost_of_routes};

use crate::begin::routes_of;
use crate::clock::{Endless, MoveClock};
use crate::finish::plan_of;
use crate::own::{OwnFault, own_routes};
use crate::route::Route;
use crate::savings::join_routes;
use crate::settling::settle_joined;
use crate::watcher::{Course, MoveWatcher, Nobody};
use instance_reader::Instance;
use order_pricing::Pricer;
use route_plan::FleetPlan;
use std::alloc::{AllocError, Global};

/// What becomes of a fleet plan, or of none.
#[derive(Drop)]
pub enum Improved {
    /// A plan that no relocation and no exchange of customers makes cheaper.
    Plan(FleetPlan),
    /// The least node of a customer whom no route of his own reaches; there was no plan.
    Alone(usize),
}

/// Makes a fleet plan cheaper until no relocation and no exchange of customers helps; without one
/// it begins with a route for each customer alone.
///
/// The plan is a fleet plan that costs no more than `from`, and without `from` no more than routes
/// for the customers alone. Each of its routes is fastest for the order of its customers, and they
/// stand in rising order of their first customers. It may be written as text.
/// [`Improved::Alone`] comes exactly where there is no `from` and some customer has no feasible
/// route of his own. The only `Err` is want of memory.
pub fn improve(
    alloc: Global,
    inst: &Instance,
    from: Option<&FleetPlan>,
) -> Result<Improved, AllocError>
    requires { IfSome from (λ plan. IsFleetPlan inst.now 1 (stops_of plan.now.routes)) }
    ensures { IfOk result (IsAnswer inst.now (option_map (λ plan. plan.now.routes) from.entry)) }
{
    improve_watched(alloc, inst, from, &mut Nobody {})
}

/// The same as `improve`, where a watcher is told how far the improvement is.
#[tactic(auto, using(crate::proofs::Answered::answer_of))]
pub fn improve_watched<W: MoveWatcher>(
    alloc: Global,
    inst: &Instance,
    from: Option<&FleetPlan>,
    watcher: &mut W,
) -> Result<Improved, AllocError>
    requires { IfSome from (λ plan. IsFleetPlan inst.now 1 (stops_of plan.now.routes)) }
    ensures { IfOk result (IsAnswer inst.now (option_map (λ plan. plan.now.routes) from.entry)) }
{
    improve_timed(alloc, inst, from, &mut Endless, watcher)
}

/// The same as `improve_watched`, where a clock may end the moves: as long as it doesn't say that
/// its time is up, no relocation and no exchange of customers is left that helps.
///
/// Behind the clock's end an order is charged for each route. Without `from` routes for the
/// customers alone are sought whatever the clock says.
pub fn improve_timed<C: MoveClock, W: MoveWatcher>(
    alloc: Global,
    inst: &Instance,
    from: Option<&FleetPlan>,
    clock: &mut C,
    watcher: &mut W,
) -> Result<Improved, AllocError>
    requires { IfSome from (λ plan. IsFleetPlan inst.now 1 (stops_of plan.now.routes)) }
    ensures { IfOk result (IsTimedAnswer inst.now (C.has_ended clock.new)
        (option_map (λ plan. plan.now.routes) from.entry)) }
{
    match from {
        Some(plan) => Ok(Improved::Plan(improve_plan(alloc, inst, plan, clock, watcher)?)),
        None => improve_none(alloc, inst, clock, watcher),
    }
}

/// Makes a fleet plan cheaper.
fn improve_plan<C: MoveClock, W: MoveWatcher>(
    alloc: Global,
    inst: &Instance,
    plan: &FleetPlan,
    clock: &mut C,
    watcher: &mut W,
) -> Result<FleetPlan, AllocError>
    requires { IsFleetPlan inst.now 1 (stops_of plan.now.routes) }
    ensures moved { IfOk result
        (λ better. IsMoved inst.now (C.has_ended clock.new) better.routes) }
    ensures no_more { IfOk result (λ better. cost_of inst.now 1 (stops_of better.routes)
        ≤ cost_of inst.now 1 (stops_of plan.now.routes)) }
{
    let mut pricer = Pricer::new(alloc, inst)?;
    let routes = routes_of(alloc, inst, &mut pricer, plan)?;
    settled_plan(alloc, inst, &mut pricer, routes, clock, watcher)
}

/// Makes routes for the customers alone cheaper.
fn improve_none<C: MoveClock, W: MoveWatcher>(
    alloc: Global,
    inst: &Instance,
    clock: &mut C,
    watcher: &mut W,
) -> Result<Improved, AllocError>
    ensures { IfOk result (IsTimedAnswer inst.now (C.has_ended clock.new) None) }
{
    let routes = match own_routes(alloc, inst) {
        Ok(routes) => routes,
        Err(OwnFault::Alone(node)) => return Ok(Improved::Alone(node)),
        Err(OwnFault::Memory) => return Err(AllocError),
    };
    let mut pricer = Pricer::new(alloc, inst)?;
    let plan = settled_plan(alloc, inst, &mut pricer, routes, clock, watcher)?;
    Ok(Improved::Plan(plan))
}

/// Joins routes, and then makes moves and joins routes in turn, until no relocation, no exchange
/// and no join helps, or the clock ends that.
fn settled_plan<C: MoveClock, W: MoveWatcher>(
    alloc: Global,
    inst: &Instance,
    pricer: &mut Pricer,
    mut routes: Vec<Route>,
    clock: &mut C,
    watcher: &mut W,
) -> Result<FleetPlan, AllocError>
    requires network { pricer.old ≡ inst.now }
    requires routes { AreRoutes inst.now routes.items }
    ensures moved { IfOk result
        (λ plan. IsMoved inst.now (C.has_ended clock.new) plan.routes) }
    ensures no_more { IfOk result (λ plan.
        cost_of inst.now 1 (stops_of plan.routes) ≤ cost_of_routes routes.items) }
{
    // That the instance's network is one is told by its calls; on it rests that the plan's numbers
    // are small.
    let _nodes = inst.nodes();
    let mut course = Course::new(watcher, routes.as_slice());
    join_routes(
        alloc,
        inst,
        pricer,
        &mut routes,
        clock,
        &mut course,
        u64::MAX,
    )?;
    let settled = settle_joined(alloc, inst, pricer, routes, clock, &mut course)?;
    plan_of(alloc, inst, &settled)
}
