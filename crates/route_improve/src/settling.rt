//! Passes until none makes a move, over routes in order.

ghost use Rattle.std.specs.Prelude.{◌≡◌, ◌≤◌, false, length, IfOk, IsTrue, OnOk};
ghost use Rattle.std.specs.List.Sorted.{IsNonDecreasingBy, IsPermutation};
ghost use Rattle.route_improve.specs.Arranged.{AreArranged, AreOrderly, are_served, first_node};
ghost use Rattle.route_improve.specs.Routes.{AreRoutes, AreSettledTo, cost_of_routes};

use crate::clock::MoveClock;
use crate::pass::pass;
use crate::route::Route;
use crate::savings::join_routes;
use crate::watcher::{Course, MoveWatcher};
use instance_reader::Instance;
use order_pricing::Pricer;
use std::alloc::{AllocError, Global};

/// Makes moves until none makes the routes cheaper, or the clock ends that. In the end the routes
/// with customers stand in rising order of their first ones, and one without customers follows.
pub(crate) fn settle<C: MoveClock, W: MoveWatcher>(
    alloc: Global,
    pricer: &mut Pricer,
    mut routes: Vec<Route>,
    clock: &mut C,
    course: &mut Course<'_, W>,
) -> Result<Vec<Route>, AllocError>
    requires { AreRoutes pricer.old routes.items }
    ensures network { pricer.new ≡ pricer.old }
    ensures orderly { IfOk result (λ better.
        AreOrderly pricer.old routes.items better.items) }
    ensures settled { IfOk result (λ better. C.has_ended clock.new ≡ false →
        AreSettledTo pricer.old better.items (length better.items)) }
    ensures stays { IsTrue (C.has_ended clock.old) → IsTrue (C.has_ended clock.new) }
{
    loop {
        routes = arranged(alloc, routes)?;
        if !pass(alloc, pricer, &mut routes, clock, course)? {
            return Ok(routes);
        }
    }
}

/// Makes moves and joins routes in turn, until neither makes the routes cheaper, or the clock ends
/// that. In the end the routes stand in order, as [`settle`] leaves them.
pub(crate) fn settle_joined<C: MoveClock, W: MoveWatcher>(
    alloc: Global,
    inst: &Instance,
    pricer: &mut Pricer,
    mut routes: Vec<Route>,
    clock: &mut C,
    course: &mut Course<'_, W>,
) -> Result<Vec<Route>, AllocError>
    requires { AreRoutes pricer.old routes.items }
    ensures network { pricer.new ≡ pricer.old }
    ensures orderly { IfOk result (λ better.
        AreOrderly pricer.old routes.items better.items) }
    ensures settled { IfOk result (λ better. C.has_ended clock.new ≡ false →
        AreSettledTo pricer.old better.items (length better.items)) }
    ensures stays { IsTrue (C.has_ended clock.old) → IsTrue (C.has_ended clock.new) }
{
    loop {
        routes = settle(alloc, pricer, routes, clock, course)?;
        if !join_routes(alloc, inst, pricer, &mut routes, clock, course, u64::MAX)? {
            return Ok(routes);
        }
    }
}

/// The routes with customers in rising order of their first ones, and one without customers behind
/// them.
pub(crate) fn arranged(alloc: Global, routes: Vec<Route>) -> Result<Vec<Route>, AllocError>
    ensures { IfOk result (λ arranged. AreArranged routes.items arranged.items) }
{
    let mut served = served(alloc, routes)?;
    sort_by_first(&mut served);
    served.push(Route {
        order: Vec::new(alloc),
        time: 0,
    })?;
    Ok(served)
}

/// The routes with customers.
fn served(alloc: Global, routes: Vec<Route>) -> Result<Vec<Route>, AllocError>
    ensures { IfOk result (λ served. served.items ≡ are_served routes.items) }
{
    let mut served = Vec::new(alloc);
    for route in routes {
        if !route.order.is_empty() {
            served.push(route)?;
        }
    }
    Ok(served)
}

/// Sorts the routes by their first customers.
fn sort_by_first(routes: &mut Vec<Route>)
    ensures same { IsPermutation routes.old.items routes.new.items }
    ensures order { IsNonDecreasingBy first_node routes.new.items }
{
    routes.sort_unstable_by_key(|route| first_node(route));
}

/// The node of the first customer, 0 where there is none.
fn first_node(route: &Route) -> usize
    ensures { result ≡ first_node route.now }
{
    match route.order.first() {
        Some(node) => *node,
        None => 0,
    }
}
