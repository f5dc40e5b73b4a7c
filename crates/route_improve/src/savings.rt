//! The first steps from a route for each customer alone: routes are joined end to start, for the
//! pairs of customers that save most first (Clarke, Wright 1964). A join is charged exactly.

ghost use Rattle.std.specs.Prelude.{◌≡◌, ◌<◌, ◌≤◌, false, IfOk, IfSome, IsTrue, length};
ghost use Rattle.ev_model.specs.Network.{node_count};
ghost use Rattle.route_improve.specs.Routes.{AreCheaper, AreNoDearer, AreRoutes};

use crate::clock::MoveClock;
use crate::moves::{copy_of, take_pair};
use crate::route::Route;
use crate::watcher::{Course, MoveWatcher};
use instance_reader::Instance;
use order_pricing::Pricer;
use std::alloc::{AllocError, Global};

/// A customer who is to follow another, and how much time that saves beside a way home and out
/// again, in units of time.
#[derive(Drop)]
struct Saving {
    from: usize,
    to: usize,
    time: u64,
}

/// Joins routes where that is cheaper, each pair of customers tried at most once, until so much
/// work was done or the clock ends that; whether some were joined.
#[tactic(auto, using(crate::proofs::Joined::going_no_dearer))]
pub(crate) fn join_routes<C: MoveClock, W: MoveWatcher>(
    alloc: Global,
    inst: &Instance,
    pricer: &mut Pricer,
    routes: &mut Vec<Route>,
    clock: &mut C,
    course: &mut Course<'_, W>,
    work: u64,
) -> Result<bool, AllocError>
    requires { AreRoutes pricer.old routes.old.items }
    ensures network { pricer.new ≡ pricer.old }
    ensures joined { IfOk result (λ made.
        AreNoDearer pricer.old routes.old.items routes.new.items) }
    ensures made { IfOk result (λ made. IsTrue made →
        AreCheaper pricer.old routes.old.items routes.new.items) }
    ensures same { IfOk result (λ made. made ≡ false → routes.new.items ≡ routes.old.items) }
    ensures stays { IsTrue (C.has_ended clock.old) → IsTrue (C.has_ended clock.new) }
{
    let savings = savings_of(alloc, inst)?;
    let mut made = false;
    for saving in savings {
        if pricer.work() >= work || clock.is_over() {
            return Ok(made);
        }
        if join(alloc, pricer, routes, &saving)? {
            made = true;
            course.moved(routes);
        }
        course.tell();
    }
    Ok(made)
}

/// The savings of all pairs of customers, the greatest first.
fn savings_of(alloc: Global, inst: &Instance) -> Result<Vec<Saving>, AllocError> {
    let mut savings = Vec::new(alloc);
    for from in inst.customers() {
        push_savings(&mut savings, inst, *from)?;
    }
    savings.sort_unstable_by_key(|saving| u64::MAX - saving.time);
    Ok(savings)
}

/// Appends the savings of the customers who may follow one.
fn push_savings(savings: &mut Vec<Saving>, inst: &Instance, from: usize) -> Result<(), AllocError>
    requires { from < node_count inst.now }
{
    let home = inst.time(from, 0);
    for to in inst.customers() {
        let apart = home + inst.time(0, *to);
        let time = apart.saturating_sub(inst.time(from, *to));
        if time > 0 {
            savings.push(Saving {
                from,
                to: *to,
                time,
            })?;
        }
    }
    Ok(())
}

/// Joins the route that ends with a customer and the one that begins with another where that is
/// cheaper; whether it was.
fn join(
    alloc: Global,
    pricer: &mut Pricer,
    routes: &mut Vec<Route>,
    saving: &Saving,
) -> Result<bool, AllocError>
    requires { AreRoutes pricer.old routes.old.items }
    ensures network { pricer.new ≡ pricer.old }
    ensures made { IfOk result (λ made. IsTrue made →
        AreCheaper pricer.old routes.old.items routes.new.items) }
    ensures same { IfOk result (λ made. made ≡ false → routes.new.items ≡ routes.old.items) }
{
    let Some(a) = ending_with(routes, saving.from) else {
        return Ok(false);
    };
    let Some(b) = beginning_with(routes, saving.to) else {
        return Ok(false);
    };
    if a == b {
        return Ok(false);
    }
    let mut order = copy_of(alloc, &routes[a].order)?;
    order.extend_from_slice(&routes[b].order)?;
    take_pair(alloc, pricer, routes, a, order, b, Vec::new(alloc))
}

/// The route whose last customer is at a node.
fn ending_with(routes: &[Route], node: usize) -> Option<usize>
    ensures { IfSome result (λ a. a < length routes.now) }
{
    for (at, route) in routes.iter().enumerate() {
        if route.order.last() == Some(&node) {
            return Some(at);
        }
    }
    None
}

/// The route whose first customer is at a node.
fn beginning_with(routes: &[Route], node: usize) -> Option<usize>
    ensures { IfSome result (λ b. b < length routes.now) }
{
    for (at, route) in routes.iter().enumerate() {
        if route.order.first() == Some(&node) {
            return Some(at);
        }
    }
    None
}
