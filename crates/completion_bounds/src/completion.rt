//! What can't earn any more.

ghost use Rattle.std.specs.Prelude.{◌≡◌, false};
ghost use Rattle.completion_bounds.specs.Tables.{IsNone};

use crate::arcs::{arc_costs, least_cost, least_rate, least_time};
use crate::legs::{Costs, Legs, all_legs};
use crate::needs::levels_needed;
use crate::rests::{HomeEarnings, all_rests, rest_at};
use crate::terms::Terms;
use customer_sets::CustSet;
use instance_reader::Instance;
use piece_fn::PieceFn;
use std::alloc::{AllocError, Global};

/// No table is made that takes more steps: one for each layer and both ends of each arc.
const MOST_STEPS: u64 = 2_500_000;

/// What ways home can still earn within a budget.
///
/// A vehicle has a budget: the time until a route can't earn any more, and what its level is worth.
#[derive(Drop)]
pub struct Completion {
    weight: u64,
    /// What a unit of level is worth, in scaled time.
    rate: u64,
    /// The last scaled time at which a route can earn.
    horizon: u64,
    /// A layer reckons with so much more budget than the one before it.
    step: u64,
    /// What the arcs cost, by both nodes.
    costs: Vec<Vec<u64>>,
    /// The arcs on, by node.
    legs: Vec<Legs>,
    /// What ways home earn, by node and by layer; no node where there is no table.
    rests: Vec<Vec<HomeEarnings>>,
    /// The level with which a vehicle can go on from a node, by node.
    needs: Vec<u64>,
}

impl Completion {
    /// No table, by which nothing is left out.
    pub fn none(alloc: Global) -> Completion
        ensures { IsNone result }
    {
        Completion {
            weight: 0,
            rate: 0,
            horizon: 0,
            step: 1,
            costs: Vec::new(alloc),
            legs: Vec::new(alloc),
            rests: Vec::new(alloc),
            needs: Vec::new(alloc),
        }
    }

    /// The table, or none where it would have too many layers.
    pub fn new(alloc: Global, terms: &Terms<'_>) -> Result<Completion, AllocError> {
        let rate = least_rate(terms.inst);
        let horizon = terms.horizon;
        let full = horizon.saturating_add(rate.saturating_mul(terms.inst.max_q()));
        let costs = arc_costs(alloc, terms.inst, rate)?;
        let most = most_layers(terms.inst);
        let step = layer_size(full, terms.layers.min(most))
            .min(least_time(terms.inst))
            .max(layer_size(full, terms.layers.saturating_mul(2).min(most)))
            .min(least_cost(terms.inst, &costs));
        let layers = full.checked_div(step).unwrap_or(u64::MAX);
        if layers >= most {
            return Ok(Completion::none(alloc));
        }
        let all = costs.as_slice();
        let legs = all_legs(alloc, terms, Costs { all, rate, step })?;
        let rests = all_rests(alloc, &legs, layers + 1)?;
        Ok(Completion {
            weight: terms.weight,
            rate,
            horizon,
            step,
            costs,
            legs,
            rests,
            needs: levels_needed(alloc, terms.inst)?,
        })
    }

    /// The budget of a value: the most at any of its points, and 0 where there is no table.
    pub fn budget(&self, value: &PieceFn) -> u64 {
        let mut most = 0;
        if self.rests.is_empty() {
            return most;
        }
        for (level, time) in value.points() {
            let worth = self
                .horizon
                .saturating_add(self.rate.saturating_mul(*level));
            most = worth.saturating_sub(*time).max(most);
        }
        most
    }

    /// The least level with which a vehicle can go on from a node.
    pub fn need(&self, node: usize) -> u64 {
        self.needs.get(node).copied().unwrap_or(0)
    }

    /// Whether no way home earns from behind an arc, with the customers remembered and what is
    /// earned at its end.
    pub fn leaves_out(
        &self,
        budget: u64,
        from: usize,
        to: usize,
        memory: CustSet,
        earned: i128,
    ) -> bool
        ensures { IsNone self.now → result ≡ false }
    {
        if self.rests.is_empty() {
            return false;
        }
        match budget.checked_sub(self.cost(from, to)) {
            Some(left) => self.is_beyond(left, to, memory, earned),
            None => true,
        }
    }

    /// What an arc costs, 0 where it isn't known.
    fn cost(&self, from: usize, to: usize) -> u64 {
        match self.costs.get(from) {
            Some(row) => row.get(to).copied().unwrap_or(0),
            None => 0,
        }
    }

    /// Whether no way home earns with a budget at a node, with these customers remembered and so
    /// much earned.
    pub fn is_beyond(&self, budget: u64, node: usize, memory: CustSet, earned: i128) -> bool
        ensures { IsNone self.now → result ≡ false }
    {
        let Some(row) = self.rests.get(node) else {
            return false;
        };
        let layer = budget.checked_div(self.step).unwrap_or(0);
        let Some(rest) = row.get(layer as usize).or(row.last()) else {
            return false;
        };
        let gain = earned.saturating_add(rest.without(memory));
        match self.horizon.checked_sub(budget) {
            Some(spent) => {
                let owed = u128::from(self.weight) * u128::from(spent);
                gain <= 0 || gain.unsigned_abs() <= owed
            }
            None => {
                let left = budget.saturating_sub(self.horizon);
                let saved = u128::from(self.weight) * u128::from(left);
                gain <= 0 && gain.unsigned_abs() >= saved
            }
        }
    }

    /// The weight of a unit of scaled time.
    pub fn weight(&self) -> u64 {
        self.weight
    }

    /// What a unit of level is worth, in scaled time.
    pub fn rate(&self) -> u64 {
        self.rate
    }

    /// The arcs on from the nodes, by node; none where there is no table.
    pub fn legs(&self) -> &[Legs] {
        self.legs.as_slice()
    }

    /// What ways home earn from a node, by layer, where there is a table.
    pub fn rests(&self, node: usize) -> &[HomeEarnings] {
        match self.rests.get(node) {
            Some(row) => row.as_slice(),
            None => &[],
        }
    }

    /// The layer of a budget.
    pub fn layer(&self, budget: u64) -> u64 {
        budget.checked_div(self.step).unwrap_or(0)
    }

    /// The least scaled time, less what the level is worth, with which a vehicle is in a layer.
    pub fn least_time(&self, layer: u64) -> i128 {
        let above = i128::from(layer).saturating_add(1);
        let most = above
            .saturating_mul(i128::from(self.step))
            .saturating_sub(1);
        i128::from(self.horizon).saturating_sub(most)
    }
}

/// How much budget a layer has, where there are so many.
fn layer_size(full: u64, layers: u64) -> u64 {
    full.checked_div(layers).unwrap_or(full).saturating_add(1)
}

/// How many layers a table has at the most.
fn most_layers(inst: &Instance) -> u64 {
    let nodes = inst.nodes() as u64;
    MOST_STEPS
        .checked_div(nodes.saturating_mul(nodes))
        .unwrap_or(0)
}
