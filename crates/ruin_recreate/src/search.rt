//! What a search for cheaper routes has.

use crate::chance::Chance;
use crate::costs::Costs;
use crate::fleet::Fleet;
use crate::near::{closest, nearest};
use crate::toll::Toll;
use instance_reader::Instance;
use std::alloc::{AllocError, Global};

/// Places of a route are looked at beside so many customers near one at the most, himself counted,
/// and beside the depot.
const MOST_CLOSE: usize = 13;

/// A search for cheaper routes by ruin and recreate.
#[derive(Drop)]
pub(crate) struct RuinSearch {
    pub(crate) costs: Costs,
    pub(crate) toll: Toll,
    pub(crate) chance: Chance,
    /// For each customer all customers, the nearest first.
    pub(crate) near: Vec<Vec<usize>>,
    /// The least time of a route for each customer alone, where there is one.
    alone: Vec<Option<u64>>,
    pub(crate) fleet: Fleet,
    /// The customers who are put in in this turn.
    pub(crate) gone: Vec<usize>,
    /// An order that is looked at.
    pub(crate) trial: Vec<usize>,
    /// When each route was looked at last, and how often routes were looked for.
    pub(crate) looked: Vec<u64>,
    pub(crate) looks: u64,
    /// How many places were looked at.
    pub(crate) places: u64,
}

impl RuinSearch {
    /// Nobody is served yet.
    pub(crate) fn new(alloc: Global, inst: &Instance, seed: u64) -> Result<RuinSearch, AllocError> {
        let mut costs = Costs::new(alloc, inst)?;
        let limit = costs.ground.limit;
        let near = nearest(alloc, &costs.ground)?;
        costs.ground.close = closest(alloc, &near, MOST_CLOSE)?;
        let mut alone = Vec::new(alloc);
        for customer in 0..costs.ground.customers {
            alone.push(costs.time_below(&[customer], limit.saturating_add(1))?)?;
        }
        Ok(RuinSearch {
            toll: Toll::hard(limit),
            chance: Chance::new(seed),
            near,
            alone,
            fleet: Fleet::new(alloc, costs.ground.customers)?,
            costs,
            gone: Vec::new(alloc),
            trial: Vec::new(alloc),
            looked: Vec::new(alloc),
            looks: 0,
            places: 0,
        })
    }

    /// The least time of a route for a customer alone, where there is one.
    pub(crate) fn alone(&self, customer: usize) -> Option<u64> {
        self.alone.get(customer).copied().flatten()
    }

    /// How much work was done, in places that were looked at.
    pub(crate) fn work(&self) -> u64 {
        self.costs.work().wrapping_add(self.places)
    }

    /// The customer at a place among those near another one.
    pub(crate) fn near(&self, customer: usize, place: usize) -> Option<usize> {
        self.near.get(customer)?.get(place).copied()
    }

    /// Whether a search is in a plan that may be told: everybody is served within the limit.
    pub(crate) fn is_plan(&self) -> bool {
        self.fleet.is_whole() && self.fleet.is_within(&self.toll)
    }

    /// The nodes of the customers of an order.
    pub(crate) fn nodes(&self, alloc: Global, order: &[usize]) -> Result<Vec<usize>, AllocError> {
        let mut nodes = Vec::with_capacity(alloc, order.len())?;
        for customer in order {
            nodes.push(self.costs.ground.node(*customer))?;
        }
        Ok(nodes)
    }

    /// The nodes of the customers of orders.
    pub(crate) fn nodes_of(
        &self,
        alloc: Global,
        orders: &[Vec<usize>],
    ) -> Result<Vec<Vec<usize>>, AllocError> {
        let mut all = Vec::with_capacity(alloc, orders.len())?;
        for order in orders {
            all.push(self.nodes(alloc, order)?)?;
        }
        Ok(all)
    }

    /// The scaled time of a time of the search.
    pub(crate) fn scaled(&self, time: u64) -> u64 {
        time.saturating_mul(self.costs.ground.unit)
    }
}
