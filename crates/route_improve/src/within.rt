//! Fleet plans that are made cheaper by so much work at most.

ghost use Rattle.std.specs.Prelude.{◌≡◌, ◌≤◌, false, IfOk, IsTrue};
ghost use Rattle.ev_model.specs.Fleet.{IsFleetPlan, cost_of};
ghost use Rattle.plan_check.specs.FleetRules.{stops_of};
ghost use Rattle.route_improve.specs.Arranged.{AreOrderly};
ghost use Rattle.route_improve.specs.Improved.{IsOrderly};
ghost use Rattle.route_improve.specs.Routes.{AreCheaper, AreRoutes, cost_of_routes};

use crate::begin::routes_of;
use crate::clock::{Endless, MoveClock};
use crate::finish::plan_of;
use crate::pass::improve_customer;
use crate::route::Route;
use crate::savings::join_routes;
use crate::settling::arranged;
use crate::watcher::{Course, Nobody};
use instance_reader::Instance;
use order_pricing::Pricer;
use route_plan::FleetPlan;
use std::alloc::{AllocError, Global};

/// Makes a fleet plan cheaper by joins of routes, relocations and exchanges of customers, until
/// none helps or so much work was done.
///
/// Work is counted in customers that are looked at. Charging an order of n customers takes as much
/// as looking at n squared: a million is a second at most. What was begun is brought to its end,
/// the moves of one customer to and with one route, and each route of the plan is charged once
/// whatever the work.
///
/// The answer is a fleet plan that costs no more than `plan`. Each of its routes is fastest for the
/// order of its customers, and they stand in rising order of their first customers. It may be
/// written as text. The only `Err` is want of memory.
pub fn improve_within(
    alloc: Global,
    inst: &Instance,
    plan: &FleetPlan,
    work: u64,
) -> Result<FleetPlan, AllocError>
    requires { IsFleetPlan inst.now 1 (stops_of plan.now.routes) }
    ensures orderly { IfOk result (λ better. IsOrderly inst.now better.routes) }
    ensures no_more { IfOk result (λ better. cost_of inst.now 1 (stops_of better.routes)
        ≤ cost_of inst.now 1 (stops_of plan.now.routes)) }
{
    improve_timed_within(alloc, inst, plan, work, &mut Endless)
}

/// The same, where a clock may end it too: it is asked before each place that is looked at.
pub fn improve_timed_within<C: MoveClock>(
    alloc: Global,
    inst: &Instance,
    plan: &FleetPlan,
    work: u64,
    clock: &mut C,
) -> Result<FleetPlan, AllocError>
    requires { IsFleetPlan inst.now 1 (stops_of plan.now.routes) }
    ensures orderly { IfOk result (λ better. IsOrderly inst.now better.routes) }
    ensures no_more { IfOk result (λ better. cost_of inst.now 1 (stops_of better.routes)
        ≤ cost_of inst.now 1 (stops_of plan.now.routes)) }
{
    let mut pricer = Pricer::new(alloc, inst)?;
    let routes = routes_of(alloc, inst, &mut pricer, plan)?;
    orderly_plan(alloc, inst, &mut pricer, routes, work, clock)
}

/// Joins routes, and then makes moves, until none helps, so much work was done or the clock ends
/// that.
fn orderly_plan<C: MoveClock>(
    alloc: Global,
    inst: &Instance,
    pricer: &mut Pricer,
    mut routes: Vec<Route>,
    work: u64,
    clock: &mut C,
) -> Result<FleetPlan, AllocError>
    requires network { pricer.old ≡ inst.now }
    requires routes { AreRoutes inst.now routes.items }
    ensures orderly { IfOk result (λ plan. IsOrderly inst.now plan.routes) }
    ensures no_more { IfOk result (λ plan.
        cost_of inst.now 1 (stops_of plan.routes) ≤ cost_of_routes routes.items) }
{
    // That the instance's network is one is told by its calls; on it rests that the plan's numbers
    // are small.
    let _nodes = inst.nodes();
    let mut nobody = Nobody {};
    let mut course = Course::new(&mut nobody, routes.as_slice());
    join_routes(alloc, inst, pricer, &mut routes, clock, &mut course, work)?;
    let better = settle_within(alloc, pricer, routes, work, clock)?;
    plan_of(alloc, inst, &better)
}

/// Makes moves until none makes the routes cheaper, so much work was done or the clock ends that.
/// In the end the routes with customers stand in rising order of their first ones, and one without
/// customers follows.
fn settle_within<C: MoveClock>(
    alloc: Global,
    pricer: &mut Pricer,
    mut routes: Vec<Route>,
    work: u64,
    clock: &mut C,
) -> Result<Vec<Route>, AllocError>
    requires { AreRoutes pricer.old routes.items }
    ensures network { pricer.new ≡ pricer.old }
    ensures orderly { IfOk result (λ better.
        AreOrderly pricer.old routes.items better.items) }
{
    loop {
        routes = arranged(alloc, routes)?;
        if !sweep(alloc, pricer, &mut routes, work, clock)? {
            return Ok(routes);
        }
    }
}

/// Where moves are looked at: those of the customer at place `i` of route `a` to and with the
/// places of route `b`.
#[derive(Clone, Copy)]
struct Place {
    a: usize,
    b: usize,
    i: usize,
}

/// Looks at the moves of each place, and makes those that are cheaper, until so much work was done
/// or the clock ends that; whether one was made.
fn sweep<C: MoveClock>(
    alloc: Global,
    pricer: &mut Pricer,
    routes: &mut Vec<Route>,
    work: u64,
    clock: &mut C,
) -> Result<bool, AllocError>
    requires { AreRoutes pricer.old routes.old.items }
    ensures network { pricer.new ≡ pricer.old }
    ensures made { IfOk result (λ made. IsTrue made →
        AreCheaper pricer.old routes.old.items routes.new.items) }
    ensures same { IfOk result (λ made. made ≡ false → routes.new.items ≡ routes.old.items) }
{
    let mut made = false;
    let mut at = Place { a: 0, b: 0, i: 0 };
    for _ in 0..places(routes) {
        if pricer.work() >= work || clock.is_over() {
            return Ok(made);
        }
        if look(alloc, pricer, routes, clock, at)? {
            made = true;
        }
        at = next_place(routes, at);
    }
    Ok(made)
}

/// How many places there are.
fn places(routes: &[Route]) -> u64 {
    let mut customers: u64 = 0;
    for route in routes {
        customers = customers.saturating_add(route.order.len() as u64);
    }
    customers.saturating_mul(routes.len() as u64)
}

/// The place behind another; behind the last one the first.
fn next_place(routes: &[Route], at: Place) -> Place {
    let Place { a, b, i } = at;
    let (next_a, next_b, next_i) = (
        a.saturating_add(1),
        b.saturating_add(1),
        i.saturating_add(1),
    );
    if a < routes.len() && next_i < routes[a].order.len() {
        Place { a, b, i: next_i }
    } else if next_b < routes.len() {
        Place { a, b: next_b, i: 0 }
    } else if next_a < routes.len() {
        Place {
            a: next_a,
            b: 0,
            i: 0,
        }
    } else {
        Place { a: 0, b: 0, i: 0 }
    }
}

/// Makes the first move of a place that is cheaper, unless the clock ends that; whether one was
/// made.
fn look<C: MoveClock>(
    alloc: Global,
    pricer: &mut Pricer,
    routes: &mut Vec<Route>,
    clock: &mut C,
    at: Place,
) -> Result<bool, AllocError>
    requires { AreRoutes pricer.old routes.old.items }
    ensures network { pricer.new ≡ pricer.old }
    ensures made { IfOk result (λ made. IsTrue made →
        AreCheaper pricer.old routes.old.items routes.new.items) }
    ensures same { IfOk result (λ made. made ≡ false → routes.new.items ≡ routes.old.items) }
{
    if at.a >= routes.len() || at.b >= routes.len() || at.i >= routes[at.a].order.len() {
        return Ok(false);
    }
    improve_customer(alloc, pricer, routes, clock, at.a, at.i, at.b)
}
