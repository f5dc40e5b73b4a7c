//! A tree in the making. No clause rests on this.

use crate::dearest::most_cost;
use crate::node::{Node, Standing};
use crate::prices::Worth;
use crate::watcher::BranchProgress;
use customer_sets::LargeSet;
use instance_reader::Instance;
use near_completion::Ground;
use near_prices::KnownRoute;
use std::alloc::{AllocError, Global};

/// The finest weight of time.
const FINE: u32 = 256;

/// Where a plan may cost more, times are not weighted.
const MOST_FINE: u128 = 1 << 44;

/// No gap is told to be greater.
const MOST_GAP: u64 = 1 << 61;

/// The plan that is held.
#[derive(Drop)]
pub(crate) struct Held {
    /// What it costs, if there is one.
    pub(crate) cost: Option<u128>,
    /// Its routes, where it was found here.
    pub(crate) found: Option<Vec<KnownRoute>>,
}

/// How long lists take.
#[derive(Clone, Copy)]
pub(crate) struct ListPace {
    /// How many were made.
    pub(crate) lists: u64,
    /// In so many milliseconds.
    pub(crate) milliseconds: u64,
}

/// A tree in the making, and what is known beside it.
#[derive(Drop)]
pub(crate) struct Growth<'a> {
    pub(crate) inst: &'a Instance,
    pub(crate) ground: &'a Ground,
    /// The weight of a unit of scaled time in pricing.
    pub(crate) weight: u32,
    pub(crate) nodes: Vec<Node>,
    /// The routes that are known.
    pub(crate) pool: Vec<KnownRoute>,
    /// The near sets, which grow.
    pub(crate) near: Vec<LargeSet>,
    /// Sets of near customers.
    pub(crate) family: Vec<LargeSet>,
    pub(crate) held: Held,
    /// How many nodes were priced.
    pub(crate) priced: u64,
    pub(crate) pace: ListPace,
    /// So often a search at a node may ask the clock: some times as often as that at the root did.
    pub(crate) patience: u64,
}

impl ListPace {
    /// None was made yet for so many customers.
    pub(crate) fn guessed(customers: usize) -> ListPace {
        let customers = customers as u64;
        ListPace {
            lists: 1,
            milliseconds: customers.saturating_mul(customers) / 2,
        }
    }

    /// Reckons with a list that took so long.
    pub(crate) fn count(&mut self, milliseconds: u64) {
        self.lists = self.lists.saturating_add(1);
        self.milliseconds = self.milliseconds.saturating_add(milliseconds);
    }

    /// So many milliseconds are kept for so many lists.
    pub(crate) fn kept_for(&self, lists: u64) -> u64 {
        let all = self.milliseconds.saturating_mul(lists);
        let mean = all.checked_div(self.lists).unwrap_or(0);
        mean.saturating_add(mean / 2)
    }
}

impl Growth<'_> {
    /// What a customer costs at the most that is served without a route, in scaled time: as much as
    /// a plan.
    pub(crate) fn dearest(&self) -> u64 {
        let most = match self.held.cost {
            Some(cost) => cost,
            None => most_cost(self.inst, self.ground),
        };
        u64::try_from(most.saturating_add(1)).unwrap_or(u64::MAX)
    }

    /// Forgets routes that cost so much more than they earn at the root that no plan that is
    /// cheaper has one.
    pub(crate) fn prune(&mut self) {
        let Some(sum) = self.nodes.first().map(|root| root.prices.sum) else {
            return;
        };
        let bar = i128::from(self.gap_of(sum).saturating_mul(2));
        if let Some(root) = self.nodes.first() {
            let prices = &root.prices;
            self.pool.retain(|route| excess_of(route, prices.weight, &prices.prices) <= bar);
        }
    }

    /// How far a weighted sum of prices is below the cost of the plan that is held, the greatest
    /// number where there is none.
    pub(crate) fn gap_of(&self, sum: i128) -> u64 {
        let Some(cost) = self.held.cost else {
            return MOST_GAP;
        };
        let weight = i128::from(self.weight);
        let most = i128::try_from(cost)
            .unwrap_or(i128::MAX)
            .saturating_mul(weight);
        let gap = most.saturating_sub(sum).min(i128::from(MOST_GAP)).max(0);
        u64::try_from(gap).unwrap_or(0)
    }

    /// Holds a plan, where it is cheaper.
    pub(crate) fn hold(&mut self, plan: Vec<KnownRoute>) {
        let cost = cost_of(&plan);
        let is_cheaper = match self.held.cost {
            Some(own) => cost < own,
            None => true,
        };
        if is_cheaper {
            self.held.cost = Some(cost);
            self.held.found = Some(plan);
        }
    }

    /// The place of the leaf that is worth least, among those that don't reach the cost; `None`
    /// where all do.
    pub(crate) fn lowest(&self) -> Option<usize> {
        let mut least = None;
        let mut place = None;
        for (at, node) in self.nodes.iter().enumerate() {
            let worth = node.prices.worth();
            if !node.is_leaf() || worth.reaches(self.held.cost) {
                continue;
            }
            let rank = worth.rank();
            if least.is_none_or(|least| rank < least) {
                least = Some(rank);
                place = Some(at);
            }
        }
        place
    }

    /// How many leaves don't reach the cost.
    pub(crate) fn open(&self) -> u64 {
        let mut open: u64 = 0;
        for node in &self.nodes {
            if node.is_leaf() && !node.prices.worth().reaches(self.held.cost) {
                open = open.saturating_add(1);
            }
        }
        open
    }

    /// What all leaves are worth at the least, no more than the cost.
    pub(crate) fn worth(&self) -> Worth {
        let mut least = match self.held.cost {
            Some(cost) => Worth::Cost(cost),
            None => Worth::NoPlan,
        };
        for node in &self.nodes {
            let own = node.prices.worth();
            if node.is_leaf() && own.rank() < least.rank() {
                least = own;
            }
        }
        least
    }

    /// How far the tree has grown.
    pub(crate) fn progress(&self) -> BranchProgress {
        BranchProgress {
            nodes: self.priced,
            open: self.open(),
            bound: match self.worth() {
                Worth::Cost(cost) => i128::try_from(cost).unwrap_or(i128::MAX),
                Worth::NoPlan => i128::MAX,
            },
            cost: self.held.cost,
        }
    }

    /// Lets a node be one at which nothing is known to split on.
    pub(crate) fn give_up(&mut self, place: usize) {
        if let Some(node) = self.nodes.get_mut(place) {
            node.standing = Standing::Stuck;
        }
    }
}

/// The weight by which prices are sought, where a plan costs so much.
pub(crate) fn weight_for(inst: &Instance, ground: &Ground, cost: Option<u128>) -> u32 {
    let most = match cost {
        Some(cost) => cost,
        None => most_cost(inst, ground),
    };
    if most <= MOST_FINE { FINE } else { 1 }
}

/// What a route takes beyond what it earns by the prices of customers.
fn excess_of(route: &KnownRoute, weight: u32, prices: &[i64]) -> i128 {
    let mut excess = i128::from(route.time).saturating_mul(i128::from(weight));
    for customer in &route.order {
        let price = prices.get(*customer).copied().unwrap_or(0);
        excess = excess.saturating_sub(i128::from(price));
    }
    excess
}

/// What routes take together.
pub(crate) fn cost_of(plan: &[KnownRoute]) -> u128 {
    let mut cost: u128 = 0;
    for route in plan {
        cost = cost.saturating_add(u128::from(route.time));
    }
    cost
}

/// A copy of routes.
pub(crate) fn copies(alloc: Global, routes: &[KnownRoute]) -> Result<Vec<KnownRoute>, AllocError> {
    let mut own = Vec::with_capacity(alloc, routes.len())?;
    for route in routes {
        own.push(KnownRoute {
            order: route.order.clone()?,
            time: route.time,
        })?;
    }
    Ok(own)
}
