//! Routes of which plans may be made. No clause rests on this.

use instance_reader::MOST_CUSTOMERS;
use near_branch::BranchClock;
use near_completion::Ground;
use near_prices::{KnownRoute, PriceSearch, PricedRoute};
use std::alloc::{AllocError, Global};

/// So many are taken at the most.
const MOST_ORDERS: usize = 24_000;

/// So many plans are made by diving for one customer, and for more fewer.
const DIVES: usize = 120;

/// So many are made at the most.
const MOST_DIVES: usize = 10;

/// An order of customers for a route.
#[derive(Drop)]
pub(crate) struct NearOrder {
    /// The nodes of different customers, in order.
    pub(crate) nodes: Vec<usize>,
    /// What a route takes that serves them so, in scaled time.
    pub(crate) time: u64,
}

/// The known routes that serve nobody twice, those first that take least beyond what they earn, for
/// up to 128 customers; for more none.
pub(crate) fn orders(
    alloc: Global,
    ground: &Ground,
    routes: &[PricedRoute],
) -> Result<Vec<NearOrder>, AllocError> {
    let mut orders = Vec::new(alloc);
    if ground.customers() > MOST_CUSTOMERS {
        return Ok(orders);
    }
    for place in ranked(alloc, routes)? {
        if orders.len() >= MOST_ORDERS {
            break;
        }
        if let Some(route) = routes.get(place) {
            if is_plain(&route.order) {
                orders.push(order_of(alloc, ground, &route.order, route.time)?)?;
            }
        }
    }
    Ok(orders)
}

/// The known routes that take least beyond what they earn.
pub(crate) fn known_routes(
    alloc: Global,
    routes: &[PricedRoute],
) -> Result<Vec<KnownRoute>, AllocError> {
    let mut known = Vec::new(alloc);
    for place in ranked(alloc, routes)? {
        if known.len() >= MOST_ORDERS {
            break;
        }
        if let Some(route) = routes.get(place) {
            known.push(KnownRoute {
                order: route.order.clone()?,
                time: route.time,
            })?;
        }
    }
    Ok(known)
}

/// The places of routes, by what they take beyond what they earn.
fn ranked(alloc: Global, routes: &[PricedRoute]) -> Result<Vec<usize>, AllocError> {
    let mut keyed = Vec::with_capacity(alloc, routes.len())?;
    for (place, route) in routes.iter().enumerate() {
        keyed.push((route.reduced, place))?;
    }
    keyed.sort()?;
    let mut places = Vec::with_capacity(alloc, keyed.len())?;
    for (_, place) in keyed {
        places.push(place)?;
    }
    Ok(places)
}

/// Whether nobody is served twice.
fn is_plain(order: &[usize]) -> bool {
    for (at, customer) in order.iter().enumerate() {
        if order.iter().take(at).any(|other| other == customer) {
            return false;
        }
    }
    true
}

/// The order of these customers, by their nodes.
fn order_of(
    alloc: Global,
    ground: &Ground,
    customers: &[usize],
    time: u64,
) -> Result<NearOrder, AllocError> {
    let mut nodes = Vec::with_capacity(alloc, customers.len())?;
    for customer in customers {
        nodes.push(ground.node(*customer))?;
    }
    Ok(NearOrder { nodes, time })
}

/// Plans by diving, for up to 128 customers, each of which begins with another route of the
/// optimum; for more none. The prices of the search are others then.
pub(crate) fn dives<C: BranchClock>(
    alloc: Global,
    ground: &Ground,
    search: &mut PriceSearch<'_>,
    clock: &mut C,
) -> Result<Vec<Vec<NearOrder>>, AllocError> {
    let mut dives = Vec::new(alloc);
    if ground.customers() > MOST_CUSTOMERS {
        return Ok(dives);
    }
    for rank in 0..dive_count(ground.customers()) {
        if clock.is_up() {
            break;
        }
        let taken = search.dive(alloc, rank, clock)?;
        dives.push(orders_of(alloc, ground, &taken)?)?;
    }
    Ok(dives)
}

/// How many plans are made by diving for so many customers.
fn dive_count(customers: usize) -> usize {
    (DIVES / customers.max(1)).clamp(1, MOST_DIVES)
}

/// The orders of routes.
pub(crate) fn orders_of(
    alloc: Global,
    ground: &Ground,
    routes: &[KnownRoute],
) -> Result<Vec<NearOrder>, AllocError> {
    let mut orders = Vec::with_capacity(alloc, routes.len())?;
    for route in routes {
        orders.push(order_of(alloc, ground, &route.order, route.time)?)?;
    }
    Ok(orders)
}
