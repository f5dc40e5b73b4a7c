//! What the optimum is made of, and what it would cost with a further row. No clause rests on this.

use crate::numbers::put;
use crate::pool::Pool;
use crate::question::KnownRoute;
use crate::routes::{Route, Standing, entries_of};
use crate::search::PriceSearch;
use cover_prices::{Row, Trial};
use customer_sets::LargeSet;
use std::alloc::{AllocError, Global};

/// A route is taken whole whose amount is one, but for so little, in units of 2^-32.
const TINY: i64 = 1 << 20;

/// One, in units of 2^-32.
const ONE: i64 = 1 << 32;

/// What routes are counted by.
#[derive(Clone, Copy, Debug, PartialEq, Eq)]
pub enum Tally {
    /// How often one customer comes next after another.
    Pair { before: usize, after: usize },
    /// How often a set of customers is entered.
    Entries(LargeSet),
}

impl Tally {
    /// How often an order of customers is counted.
    pub fn of(&self, order: &[usize]) -> i64 {
        match self {
            Tally::Pair { before, after } => pairs_of(order, *before, *after),
            Tally::Entries(set) => entries_of(order, *set),
        }
    }
}

/// How often one customer comes next after another.
fn pairs_of(order: &[usize], before: usize, after: usize) -> i64 {
    let mut count: i64 = 0;
    let mut last = None;
    for customer in order {
        if last == Some(before) && *customer == after {
            count = count.saturating_add(1);
        }
        last = Some(*customer);
    }
    count
}

/// A route of the optimum.
#[derive(Drop)]
pub struct UsedRoute {
    /// The customers that it serves, by number and in order.
    pub order: Vec<usize>,
    /// To which amount the optimum takes it, in units of 2^-32.
    pub amount: i64,
}

impl PriceSearch<'_> {
    /// The routes of the optimum.
    pub fn used(&self, alloc: Global) -> Result<Vec<UsedRoute>, AllocError> {
        let mut used = Vec::new(alloc);
        for route in &self.pool.routes {
            if self.pool.is_used(route) {
                used.push(UsedRoute {
                    order: route.order.clone()?,
                    amount: self.pool.amount_of(route),
                })?;
            }
        }
        Ok(used)
    }

    /// The routes of the optimum, where it is a plan: each of them is taken whole, and each
    /// customer is served once.
    pub fn whole_plan(&self, alloc: Global) -> Result<Option<Vec<KnownRoute>>, AllocError> {
        let mut plan = Vec::new(alloc);
        let mut served: usize = 0;
        let mut seen = LargeSet::empty();
        for route in &self.pool.routes {
            if !self.pool.is_used(route) {
                continue;
            }
            if !self.is_taken_whole(route) || !route.served.common(seen).is_empty() {
                return Ok(None);
            }
            served = served.saturating_add(route.order.len());
            seen = either(seen, &route.order);
            plan.push(KnownRoute {
                order: route.order.clone()?,
                time: route.time,
            })?;
        }
        Ok(if served == self.pool.customers {
            Some(plan)
        } else {
            None
        })
    }

    /// Whether a route is taken whole and serves nobody twice.
    fn is_taken_whole(&self, route: &Route) -> bool {
        let off = self.pool.amount_of(route).saturating_sub(ONE);
        route.is_plain() && off.saturating_abs() <= TINY
    }

    /// What the optimum would cost with further rows, by the columns whose reduced cost is at most
    /// a bar, weighted.
    pub fn trial(&self, alloc: Global, bar: u64) -> Result<RowTrial<'_>, AllocError> {
        Ok(RowTrial {
            pool: &self.pool,
            trial: self.pool.cover.trial(alloc, bar)?,
        })
    }
}

/// What the optimum would cost with further rows.
#[derive(Drop)]
pub struct RowTrial<'a> {
    pool: &'a Pool,
    trial: Trial<'a>,
}

impl RowTrial<'_> {
    /// By how much it costs more with a row, weighted: so much at the least as a few pivots show,
    /// and no more than so much.
    pub fn gain(
        &self,
        alloc: Global,
        tally: Tally,
        row: Row,
        most: u64,
    ) -> Result<u64, AllocError> {
        let mut counts = vec![in alloc; 0; self.pool.columns()]?;
        for route in &self.pool.routes {
            if let Standing::Column(place) = route.standing {
                put(&mut counts, place, tally.of(&route.order));
            }
        }
        self.trial.gain(alloc, &counts, row, most)
    }
}

/// A set with these customers.
fn either(set: LargeSet, order: &[usize]) -> LargeSet {
    let mut set = set;
    for customer in order {
        set = crate::numbers::with(set, *customer);
    }
    set
}
