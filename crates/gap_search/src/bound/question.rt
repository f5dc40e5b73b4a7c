//! What prices are sought for: the routes that are known already. No clause rests on this.

use super::pace::Pace;
use crate::first::FirstPlan;
use crate::offers::{customers_of, time_of};
use crate::trips::fastest_plan;
use instance_reader::Instance;
use near_completion::{Follow, Ground, nearest_sets};
use near_prices::{KnownRoute, PriceQuestion};
use route_improve::Improved;
use route_plan::FleetPlan;
use std::alloc::{AllocError, Global};

/// The question for prices of all near routes, which begins with a plan and with the routes that
/// were seen on the way to it.
pub(crate) fn question(
    alloc: Global,
    inst: &Instance,
    ground: &Ground,
    first: &FirstPlan,
    pace: Pace,
) -> Result<PriceQuestion, AllocError> {
    Ok(PriceQuestion {
        follow: Follow::new(alloc, ground.customers())?,
        entries: Vec::new(alloc),
        serves_once: false,
        near: match pace {
            Pace::Whole | Pace::Short => Vec::new(alloc),
            Pace::Haste => nearest_sets(alloc, ground, 0)?,
        },
        plan: routes_held(alloc, inst, &first.plan)?,
        seen: other_routes(alloc, inst, ground, first)?,
        layers: pace.layers(),
        most_growths: pace.most_growths(),
        weight: 1,
        dearest: None,
        is_exact: false,
    })
}

/// The routes of the plan that is held; none where there is none.
pub(crate) fn routes_held(
    alloc: Global,
    inst: &Instance,
    held: &Improved,
) -> Result<Vec<KnownRoute>, AllocError> {
    match held {
        Improved::Plan(plan) => routes_of(alloc, inst, plan),
        Improved::Alone(_) => Ok(Vec::new(alloc)),
    }
}

/// The routes of a plan.
fn routes_of(
    alloc: Global,
    inst: &Instance,
    plan: &FleetPlan,
) -> Result<Vec<KnownRoute>, AllocError> {
    let mut known = Vec::with_capacity(alloc, plan.routes.len())?;
    for route in plan.routes.as_slice() {
        let nodes = customers_of(alloc, inst, route)?;
        known.push(known_route(alloc, inst, &nodes, time_of(inst, route))?)?;
    }
    Ok(known)
}

/// Other routes that are known: a fastest one for each customer alone, where he has one, and those
/// that were seen on the way to a plan.
fn other_routes(
    alloc: Global,
    inst: &Instance,
    ground: &Ground,
    first: &FirstPlan,
) -> Result<Vec<KnownRoute>, AllocError> {
    let mut known = own_routes(alloc, inst, ground)?;
    for route in &first.seen {
        known.push(known_route(alloc, inst, &route.nodes, route.time)?)?;
    }
    Ok(known)
}

/// A fastest route for each customer alone, where he has one.
fn own_routes(
    alloc: Global,
    inst: &Instance,
    ground: &Ground,
) -> Result<Vec<KnownRoute>, AllocError> {
    let mut known = Vec::with_capacity(alloc, ground.customers())?;
    for customer in 0..ground.customers() {
        if let Some(plan) = fastest_plan(alloc, inst, &[ground.node(customer)])? {
            let mut order = Vec::new(alloc);
            order.push(customer)?;
            let time = time_of(inst, &plan);
            known.push(KnownRoute { order, time })?;
        }
    }
    Ok(known)
}

/// The route over these nodes, by the numbers of their customers.
fn known_route(
    alloc: Global,
    inst: &Instance,
    nodes: &[usize],
    time: u64,
) -> Result<KnownRoute, AllocError> {
    let mut order = Vec::with_capacity(alloc, nodes.len())?;
    for node in nodes {
        if *node < inst.nodes() {
            if let Some(number) = inst.customer_number(*node) {
                order.push(number)?;
            }
        }
    }
    Ok(KnownRoute { order, time })
}
