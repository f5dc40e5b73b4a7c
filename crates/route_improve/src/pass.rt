//! Passes over all moves.

ghost use Rattle.std.specs.Prelude.{◌≡◌, ◌<◌, false, IfOk, IsTrue, length};
ghost use Rattle.route_improve.specs.Routes.{AreCheaper, AreRoutes, AreSettledTo, IsSettledList, IsSettledPair, IsSettledTo, count_at, lists_of};
ghost use Rattle.route_improve.specs.Trying.{AreTried, HaveMove};

use crate::clock::MoveClock;
use crate::moves::try_moves;
use crate::route::Route;
use crate::watcher::{Course, MoveWatcher};
use order_pricing::Pricer;
use std::alloc::{AllocError, Global};

/// Looks once at all relocations and exchanges, unless the clock ends that, and makes those that are
/// cheaper; whether one was made.
pub(crate) fn pass<C: MoveClock, W: MoveWatcher>(
    alloc: Global,
    pricer: &mut Pricer,
    routes: &mut Vec<Route>,
    clock: &mut C,
    course: &mut Course<'_, W>,
) -> Result<bool, AllocError>
    requires { AreRoutes pricer.old routes.old.items }
    ensures network { pricer.new ≡ pricer.old }
    ensures made { IfOk result (λ made. IsTrue made →
        AreCheaper pricer.old routes.old.items routes.new.items) }
    ensures same { IfOk result (λ made. made ≡ false → routes.new.items ≡ routes.old.items) }
    ensures settled { IfOk result (λ made. made ≡ false → C.has_ended clock.new ≡ false →
        AreSettledTo pricer.old routes.old.items (length routes.old.items)) }
    ensures stays { IsTrue (C.has_ended clock.old) → IsTrue (C.has_ended clock.new) }
{
    let mut made = false;
    for a in 0..routes.len() {
        if improve_route(alloc, pricer, routes, clock, course, a)? {
            made = true;
        }
    }
    Ok(made)
}

/// Looks at the moves between route `a` and each route, unless the clock ends that.
fn improve_route<C: MoveClock, W: MoveWatcher>(
    alloc: Global,
    pricer: &mut Pricer,
    routes: &mut Vec<Route>,
    clock: &mut C,
    course: &mut Course<'_, W>,
    a: usize,
) -> Result<bool, AllocError>
    requires routes { AreRoutes pricer.old routes.old.items }
    requires list { a < length routes.old.items }
    ensures network { pricer.new ≡ pricer.old }
    ensures made { IfOk result (λ made. IsTrue made →
        AreCheaper pricer.old routes.old.items routes.new.items) }
    ensures same { IfOk result (λ made. made ≡ false → routes.new.items ≡ routes.old.items) }
    ensures settled { IfOk result (λ made. made ≡ false → C.has_ended clock.new ≡ false →
        IsSettledList pricer.old routes.old.items (length routes.old.items) a) }
    ensures stays { IsTrue (C.has_ended clock.old) → IsTrue (C.has_ended clock.new) }
{
    let mut made = false;
    for b in 0..routes.len() {
        if improve_pair(alloc, pricer, routes, clock, a, b)? {
            made = true;
            course.moved(routes);
        }
        course.tell();
    }
    Ok(made)
}

/// Looks at the moves of the customers of route `a` to and with route `b` up to the first that is
/// cheaper, unless the clock ends that.
fn improve_pair<C: MoveClock>(
    alloc: Global,
    pricer: &mut Pricer,
    routes: &mut Vec<Route>,
    clock: &mut C,
    a: usize,
    b: usize,
) -> Result<bool, AllocError>
    requires routes { AreRoutes pricer.old routes.old.items }
    requires list { a < length routes.old.items }
    requires other { b < length routes.old.items }
    ensures network { pricer.new ≡ pricer.old }
    ensures made { IfOk result (λ made. IsTrue made →
        AreCheaper pricer.old routes.old.items routes.new.items) }
    ensures same { IfOk result (λ made. made ≡ false → routes.new.items ≡ routes.old.items) }
    ensures settled { IfOk result (λ made. made ≡ false → C.has_ended clock.new ≡ false →
        IsSettledPair pricer.old routes.old.items (count_at routes.old.items a) a b) }
    ensures stays { IsTrue (C.has_ended clock.old) → IsTrue (C.has_ended clock.new) }
{
    for i in 0..routes[a].order.len() {
        if improve_customer(alloc, pricer, routes, clock, a, i, b)? {
            return Ok(true);
        }
    }
    Ok(false)
}

/// Looks at the moves of the customer at place `i` of route `a` to and with the places of route `b`
/// up to the first that is cheaper, unless the clock ends that.
pub(crate) fn improve_customer<C: MoveClock>(
    alloc: Global,
    pricer: &mut Pricer,
    routes: &mut Vec<Route>,
    clock: &mut C,
    a: usize,
    i: usize,
    b: usize,
) -> Result<bool, AllocError>
    requires { HaveMove pricer.old routes.old.items a i b }
    ensures network { pricer.new ≡ pricer.old }
    ensures tried { IfOk result (AreTried pricer.old routes.old.items routes.new.items
        (C.has_ended clock.new ≡ false → IsSettledTo pricer.old routes.old.items a i b)) }
    ensures stays { IsTrue (C.has_ended clock.old) → IsTrue (C.has_ended clock.new) }
{
    for j in 0..routes[b].order.len() {
        if clock.is_over() {
            return Ok(false);
        }
        if try_moves(alloc, pricer, routes, a, i, b, j)? {
            return Ok(true);
        }
    }
    let last = routes[b].order.len();
    try_moves(alloc, pricer, routes, a, i, b, last)
}
