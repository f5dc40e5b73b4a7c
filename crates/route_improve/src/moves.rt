//! Single moves: each is made where it makes the routes cheaper.

ghost use Rattle.std.specs.Prelude.{◌≡◌, ◌≢◌, ◌<◌, IfOk, length, set};
ghost use Rattle.route_improve.specs.Moves.{HasPlace, exchanged};
ghost use Rattle.route_improve.specs.Routes.{AreNoCheaper, AreRoutes, IsSettledAt, lists_of};
ghost use Rattle.route_improve.specs.Taking.{AreOfPair, AreOfRoute};
ghost use Rattle.route_improve.specs.Trying.{AreTried, HaveMove, IsNoExchange, IsNoRelocation};

use crate::route::Route;
use order_pricing::Pricer;
use std::alloc::{AllocError, Global};

/// Makes the relocation or the exchange of the customer at place `i` of route `a` to or with place
/// `j` of route `b` where that is cheaper; whether one was made.
pub(crate) fn try_moves(
    alloc: Global,
    pricer: &mut Pricer,
    routes: &mut Vec<Route>,
    a: usize,
    i: usize,
    b: usize,
    j: usize,
) -> Result<bool, AllocError>
    requires { HaveMove pricer.old routes.old.items a i b }
    ensures network { pricer.new ≡ pricer.old }
    ensures tried { IfOk result (AreTried pricer.old routes.old.items routes.new.items
        (IsSettledAt pricer.old routes.old.items a i b j)) }
{
    if relocate(alloc, pricer, routes, a, i, b, j)? {
        return Ok(true);
    }
    exchange(alloc, pricer, routes, a, i, b, j)
}

/// Takes the customer at place `i` of route `a` out and puts it at place `j` of route `b` where
/// that is cheaper; whether it was.
fn relocate(
    alloc: Global,
    pricer: &mut Pricer,
    routes: &mut Vec<Route>,
    a: usize,
    i: usize,
    b: usize,
    j: usize,
) -> Result<bool, AllocError>
    requires { HaveMove pricer.old routes.old.items a i b }
    ensures network { pricer.new ≡ pricer.old }
    ensures tried { IfOk result (AreTried pricer.old routes.old.items routes.new.items
        (IsNoRelocation pricer.old routes.old.items a i b j)) }
{
    if a == b {
        relocate_within(alloc, pricer, routes, a, i, j)
    } else {
        relocate_between(alloc, pricer, routes, a, i, b, j)
    }
}

/// The same within one route.
fn relocate_within(
    alloc: Global,
    pricer: &mut Pricer,
    routes: &mut Vec<Route>,
    a: usize,
    i: usize,
    j: usize,
) -> Result<bool, AllocError>
    requires routes { AreRoutes pricer.old routes.old.items }
    requires from { HasPlace (lists_of routes.old.items) a i }
    ensures network { pricer.new ≡ pricer.old }
    ensures tried { IfOk result (AreTried pricer.old routes.old.items routes.new.items
        (IsNoRelocation pricer.old routes.old.items a i a j)) }
{
    if j >= routes[a].order.len() {
        return Ok(false);
    }
    let mut order = copy_of(alloc, &routes[a].order)?;
    let customer = order.remove(i);
    order.insert(j, customer)?;
    take_one(alloc, pricer, routes, a, order)
}

/// The same between two routes.
fn relocate_between(
    alloc: Global,
    pricer: &mut Pricer,
    routes: &mut Vec<Route>,
    a: usize,
    i: usize,
    b: usize,
    j: usize,
) -> Result<bool, AllocError>
    requires place { HaveMove pricer.old routes.old.items a i b }
    requires apart { a ≢ b }
    ensures network { pricer.new ≡ pricer.old }
    ensures tried { IfOk result (AreTried pricer.old routes.old.items routes.new.items
        (IsNoRelocation pricer.old routes.old.items a i b j)) }
{
    if j > routes[b].order.len() {
        return Ok(false);
    }
    let mut first = copy_of(alloc, &routes[a].order)?;
    let mut second = copy_of(alloc, &routes[b].order)?;
    let customer = first.remove(i);
    second.insert(j, customer)?;
    take_pair(alloc, pricer, routes, a, first, b, second)
}

/// Swaps the customers at place `i` of route `a` and at place `j` of route `b` where that is
/// cheaper; whether it was.
fn exchange(
    alloc: Global,
    pricer: &mut Pricer,
    routes: &mut Vec<Route>,
    a: usize,
    i: usize,
    b: usize,
    j: usize,
) -> Result<bool, AllocError>
    requires { HaveMove pricer.old routes.old.items a i b }
    ensures network { pricer.new ≡ pricer.old }
    ensures tried { IfOk result (AreTried pricer.old routes.old.items routes.new.items
        (IsNoExchange pricer.old routes.old.items a i b j)) }
{
    if j >= routes[b].order.len() {
        return Ok(false);
    }
    if a == b {
        exchange_within(alloc, pricer, routes, a, i, j)
    } else {
        exchange_between(alloc, pricer, routes, a, i, b, j)
    }
}

/// The same within one route.
fn exchange_within(
    alloc: Global,
    pricer: &mut Pricer,
    routes: &mut Vec<Route>,
    a: usize,
    i: usize,
    j: usize,
) -> Result<bool, AllocError>
    requires routes { AreRoutes pricer.old routes.old.items }
    requires one { HasPlace (lists_of routes.old.items) a i }
    requires other { HasPlace (lists_of routes.old.items) a j }
    ensures network { pricer.new ≡ pricer.old }
    ensures tried { IfOk result (AreTried pricer.old routes.old.items routes.new.items
        (AreNoCheaper pricer.old routes.old.items
        (exchanged (lists_of routes.old.items) a i a j))) }
{
    let mut order = copy_of(alloc, &routes[a].order)?;
    let customer = order[i];
    order[i] = order[j];
    order[j] = customer;
    take_one(alloc, pricer, routes, a, order)
}

/// The same between two routes.
fn exchange_between(
    alloc: Global,
    pricer: &mut Pricer,
    routes: &mut Vec<Route>,
    a: usize,
    i: usize,
    b: usize,
    j: usize,
) -> Result<bool, AllocError>
    requires routes { AreRoutes pricer.old routes.old.items }
    requires one { HasPlace (lists_of routes.old.items) a i }
    requires other { HasPlace (lists_of routes.old.items) b j }
    requires apart { a ≢ b }
    ensures network { pricer.new ≡ pricer.old }
    ensures tried { IfOk result (AreTried pricer.old routes.old.items routes.new.items
        (AreNoCheaper pricer.old routes.old.items
        (exchanged (lists_of routes.old.items) a i b j))) }
{
    let mut first = copy_of(alloc, &routes[a].order)?;
    let mut second = copy_of(alloc, &routes[b].order)?;
    let customer = first[i];
    first[i] = second[j];
    second[j] = customer;
    take_pair(alloc, pricer, routes, a, first, b, second)
}

/// Takes an order in place of that of route `a` where it takes less time; whether it does. It has
/// the same customers.
fn take_one(
    alloc: Global,
    pricer: &mut Pricer,
    routes: &mut Vec<Route>,
    a: usize,
    order: Vec<usize>,
) -> Result<bool, AllocError>
    requires routes { AreRoutes pricer.old routes.old.items }
    requires list { a < length routes.old.items }
    requires same { AreOfRoute pricer.old routes.old.items a order.items }
    ensures network { pricer.new ≡ pricer.old }
    ensures tried { IfOk result (AreTried pricer.old routes.old.items routes.new.items
        (AreNoCheaper pricer.old routes.old.items
        (set (lists_of routes.old.items) a order.items))) }
{
    let than = u128::from(routes[a].time);
    match pricer.least_times(alloc, &order, &[], than)? {
        Some((time, _)) => {
            routes[a] = Route { order, time };
            Ok(true)
        }
        None => Ok(false),
    }
}

/// Takes orders in place of those of the routes `a` and `b` where they take less time together;
/// whether they do. They have the same customers.
pub(crate) fn take_pair(
    alloc: Global,
    pricer: &mut Pricer,
    routes: &mut Vec<Route>,
    a: usize,
    first: Vec<usize>,
    b: usize,
    second: Vec<usize>,
) -> Result<bool, AllocError>
    requires routes { AreRoutes pricer.old routes.old.items }
    requires one { a < length routes.old.items }
    requires other { b < length routes.old.items }
    requires apart { a ≢ b }
    requires same { AreOfPair pricer.old routes.old.items a b first.items second.items }
    ensures network { pricer.new ≡ pricer.old }
    ensures tried { IfOk result (AreTried pricer.old routes.old.items routes.new.items
        (AreNoCheaper pricer.old routes.old.items
        (set (set (lists_of routes.old.items) a first.items) b second.items))) }
{
    let than = u128::from(routes[a].time) + u128::from(routes[b].time);
    match pricer.least_times(alloc, &first, &second, than)? {
        Some((first_time, second_time)) => {
            routes[a] = Route {
                order: first,
                time: first_time,
            };
            routes[b] = Route {
                order: second,
                time: second_time,
            };
            Ok(true)
        }
        None => Ok(false),
    }
}

/// A vector of the nodes.
pub(crate) fn copy_of(alloc: Global, order: &[usize]) -> Result<Vec<usize>, AllocError>
    ensures { IfOk result (λ copy. copy.items ≡ order.now) }
{
    let mut copy = Vec::with_capacity(alloc, order.len())?;
    copy.extend_from_slice(order)?;
    Ok(copy)
}
