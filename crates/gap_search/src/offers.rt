//! Routes of which plans are made. No clause rests on this.

use crate::bound::NearOrder;
use crate::watcher::{GapProgress, GapWatcher};
use customer_sets::CustSet;
use instance_reader::Instance;
use route_improve::Improved;
use route_plan::{FleetPlan, RoutePlan, walk};
use std::alloc::{AllocError, Global};

/// A route of which plans are made.
#[derive(Drop)]
pub(crate) struct Offer {
    /// The nodes of its customers, in order.
    pub(crate) nodes: Vec<usize>,
    /// Whom it serves.
    pub(crate) served: CustSet,
    /// What it takes, in scaled time.
    pub(crate) time: u64,
}

/// The routes of which plans are made, and what customers are worth by a proof. Nothing is promised
/// of them.
#[derive(Drop)]
pub(crate) struct Offers<'i> {
    pub(crate) inst: &'i Instance,
    /// The prices of the customers, by number.
    pub(crate) prices: Vec<i128>,
    /// What no plan costs less than.
    bound: Option<u128>,
    pub(crate) all: Vec<Offer>,
}

impl<'i> Offers<'i> {
    /// No route yet, by these prices of the customers, by number, and beside this bound.
    pub(crate) fn new(
        alloc: Global,
        inst: &'i Instance,
        told: &[i64],
        bound: Option<u128>,
    ) -> Result<Offers<'i>, AllocError> {
        let mut prices = Vec::with_capacity(alloc, told.len())?;
        for price in told {
            prices.push(i128::from(*price))?;
        }
        Ok(Offers {
            inst,
            prices,
            bound,
            all: Vec::new(alloc),
        })
    }

    /// Adds routes. Their places.
    pub(crate) fn add_orders(
        &mut self,
        alloc: Global,
        orders: Vec<NearOrder>,
    ) -> Result<Vec<usize>, AllocError> {
        let mut places = Vec::with_capacity(alloc, orders.len())?;
        for order in orders {
            places.push(self.add(order.nodes, order.time)?)?;
        }
        Ok(places)
    }

    /// Adds the routes of a plan. Their places.
    pub(crate) fn add_plan(
        &mut self,
        alloc: Global,
        plan: &FleetPlan,
    ) -> Result<Vec<usize>, AllocError> {
        let mut places = Vec::with_capacity(alloc, plan.routes.len())?;
        for route in plan.routes.as_slice() {
            let nodes = customers_of(alloc, self.inst, route)?;
            places.push(self.add(nodes, time_of(self.inst, route))?)?;
        }
        Ok(places)
    }

    /// How far a plan that is held is from the bound.
    pub(crate) fn progress(&self, held: &FleetPlan) -> GapProgress {
        GapProgress {
            cost: cost_of_plan(self.inst, held),
            bound: self.bound,
        }
    }

    /// Adds a route. Its place.
    fn add(&mut self, nodes: Vec<usize>, time: u64) -> Result<usize, AllocError> {
        let served = served_by(self.inst, &nodes);
        self.all.push(Offer {
            nodes,
            served,
            time,
        })?;
        Ok(self.all.len().saturating_sub(1))
    }

    /// What the routes at these places take together.
    pub(crate) fn cost_of(&self, places: &[usize]) -> u128 {
        let mut cost: u128 = 0;
        for place in places {
            if let Some(offer) = self.all.get(*place) {
                cost = cost.saturating_add(u128::from(offer.time));
            }
        }
        cost
    }

    /// Whom the routes at these places serve.
    pub(crate) fn served_by(&self, places: &[usize]) -> CustSet {
        let mut served = CustSet::empty();
        for place in places {
            if let Some(offer) = self.all.get(*place) {
                served = or(served, offer.served);
            }
        }
        served
    }
}

/// The nodes of the customers of a route, in order.
pub(crate) fn customers_of(
    alloc: Global,
    inst: &Instance,
    route: &RoutePlan,
) -> Result<Vec<usize>, AllocError> {
    let mut nodes = Vec::new(alloc);
    for stop in route.stops.as_slice() {
        if !stop.via && is_customer(inst, stop.node) {
            nodes.push(stop.node)?;
        }
    }
    Ok(nodes)
}

/// Tells what the plan that is held costs, where there is one, and the bound, where it is known.
pub(crate) fn tell<W: GapWatcher>(
    inst: &Instance,
    held: &Improved,
    bound: Option<u128>,
    watcher: &mut W,
) {
    if let Improved::Plan(plan) = held {
        watcher.watch_gap(GapProgress {
            cost: cost_of_plan(inst, plan),
            bound,
        });
    }
}

/// What a plan costs, for those who watch.
pub(crate) fn cost_of_plan(inst: &Instance, plan: &FleetPlan) -> u128 {
    let mut cost: u128 = 0;
    for route in plan.routes.as_slice() {
        cost = cost.saturating_add(u128::from(time_of(inst, route)));
    }
    cost
}

/// The scaled time of a route, the greatest number where it can't be driven.
pub(crate) fn time_of(inst: &Instance, route: &RoutePlan) -> u64 {
    match walk(inst, inst.max_q(), route.stops.as_slice()) {
        Ok(end) => end.time,
        Err(_) => u64::MAX,
    }
}

/// Whether there is a customer at a node.
fn is_customer(inst: &Instance, node: usize) -> bool {
    node < inst.nodes() && inst.customer_number(node).is_some()
}

/// The number of the customer at a node, below 128.
pub(crate) fn number_of(inst: &Instance, node: usize) -> Option<usize> {
    if node >= inst.nodes() {
        return None;
    }
    inst.customer_number(node).filter(|number| *number < 128)
}

/// The customers at these nodes.
fn served_by(inst: &Instance, nodes: &[usize]) -> CustSet {
    let mut served = CustSet::empty();
    for node in nodes {
        if let Some(number) = number_of(inst, *node) {
            if number < 128 {
                served = served.with(number);
            }
        }
    }
    served
}

/// Those in either set.
fn or(one: CustSet, other: CustSet) -> CustSet {
    let mut both = one;
    for number in 0..128 {
        if other.has(number) {
            both = both.with(number);
        }
    }
    both
}
