//! The search for prices: what is known, and what is sought. No clause rests on this.

use crate::budget::PriceEffort;
use crate::floor::Floor;
use crate::kept::Kept;
use crate::numbers::is_in;
use crate::pool::Pool;
use crate::pricing::Pricing;
use crate::question::{EntryRange, KnownRoute, PriceQuestion};
use cover_prices::Sense;
use customer_sets::LargeSet;
use instance_reader::Instance;
use near_completion::{Ground, nearest_sets};
use std::alloc::{AllocError, Global};

/// So many others stand in a near set at first.
const NEAR: usize = 3;

/// How rounds ended.
#[derive(Clone, Copy, Debug, PartialEq, Eq)]
pub enum RoundsEnd {
    /// No near route earns by the prices, and no near set grows.
    Closed,
    /// The prices are so near the optimum that further rounds aren't worth it.
    Near,
    /// The time was up, or a search was given up.
    Stopped,
}

/// A search for prices by rounds of column generation.
#[derive(Drop)]
pub struct PriceSearch<'a> {
    pub(crate) pricing: Pricing<'a>,
    pub(crate) pool: Pool,
    pub(crate) kept: Kept,
    pub(crate) floor: Floor,
    /// How many rounds were made.
    pub(crate) rounds: u64,
    /// How much work they were, in labels.
    pub(crate) work: usize,
    pub(crate) effort: PriceEffort,
    /// How often near sets may grow yet.
    pub(crate) growths: usize,
    /// Whether routes are looked for by times alone first.
    pub(crate) is_coarse: bool,
    /// Whether rounds go on until no route earns, however little.
    pub(crate) is_exact: bool,
    /// Who isn't served any more.
    pub(crate) settled: LargeSet,
}

impl<'a> PriceSearch<'a> {
    /// Nothing is sought yet.
    pub fn new(
        alloc: Global,
        inst: &'a Instance,
        ground: &'a Ground,
        question: PriceQuestion,
    ) -> Result<PriceSearch<'a>, AllocError> {
        let dearest = dearest(ground, &question);
        let PriceQuestion {
            follow,
            entries,
            serves_once,
            near,
            plan,
            seen,
            layers,
            most_growths,
            weight,
            dearest: _,
            is_exact,
        } = question;
        let pool_entries = entries.clone()?;
        let pricing = Pricing::new(alloc, inst, ground, follow, entries, layers, weight)?;
        let sense = if serves_once {
            Sense::Exactly
        } else {
            Sense::AtLeast
        };
        let dearest = dearest.max(1).saturating_mul(u64::from(weight.max(1)));
        let pool = Pool::new(
            alloc,
            ground.customers(),
            pool_entries,
            sense,
            dearest,
            weight,
        )?;
        let rows = vec![in alloc; 0; pricing.prices.len()]?;
        let floor = Floor::new(alloc, ground, rows.len(), weight)?;
        let mut search = PriceSearch {
            pricing,
            pool,
            kept: Kept::new(rows),
            floor,
            rounds: 0,
            work: 0,
            effort: PriceEffort::usual(),
            growths: most_growths,
            is_coarse: true,
            is_exact,
            settled: LargeSet::empty(),
        };
        search.set_near(alloc, &near)?;
        search.put_known(alloc, plan, true)?;
        search.put_known(alloc, seen, false)?;
        Ok(search)
    }

    /// Takes other measures of work than the usual ones.
    pub fn set_effort(&mut self, effort: PriceEffort) {
        self.effort = effort;
    }

    /// Takes near sets to begin with.
    fn set_near(&mut self, alloc: Global, near: &[LargeSet]) -> Result<(), AllocError> {
        let first = nearest_sets(alloc, self.pricing.ground, NEAR)?;
        for (customer, set) in first.iter().enumerate() {
            self.pricing.terms.set_first_near(customer, *set);
            let own = near.get(customer).copied().unwrap_or(*set);
            self.pricing.terms.set_near(customer, own);
        }
        Ok(())
    }

    /// Takes routes that are known, as columns or to wait, where they are near routes that may be
    /// taken.
    fn put_known(
        &mut self,
        alloc: Global,
        known: Vec<KnownRoute>,
        are_columns: bool,
    ) -> Result<(), AllocError> {
        for one in known {
            let KnownRoute { order, time } = one;
            if !is_order(&order, self.pool.customers) {
                continue;
            }
            let route = self.pool.route(alloc, order, time)?;
            let is_near = route.is_near(&self.pricing.terms);
            if is_near && route.is_allowed(&self.pricing.follow) {
                if are_columns {
                    self.pool.put_column(alloc, route)?;
                } else {
                    self.pool.put(route)?;
                }
            }
        }
        Ok(())
    }

    /// What prices of the rows bound: their sum, with what entries earn at the least.
    pub(crate) fn bound_of(&self, prices: &[i64]) -> i128 {
        let mut sum: i128 = 0;
        for price in prices.iter().take(self.pool.customers) {
            sum = sum.saturating_add(i128::from(*price));
        }
        for (place, entry) in self.pool.entries.iter().enumerate() {
            let price = self.pricing.entry_price(prices, place);
            sum = sum.saturating_add(least_earned(price, *entry));
        }
        sum
    }

    /// Whether a customer has a route that takes no more than it earns, but for less than one unit
    /// for each time it serves him. Its place.
    pub(crate) fn tight_place(&self, customer: usize) -> Option<usize> {
        for (place, route) in self.pool.routes.iter().enumerate() {
            if route.is_open() && is_in(route.served, customer) {
                let room = route.reduced_cost(&self.pricing.prices);
                if room >= 0 && room < route.count_of(customer) {
                    return Some(place);
                }
            }
        }
        None
    }
}

/// What entries into a set earn at the least.
fn least_earned(price: i64, entry: EntryRange) -> i128 {
    let times = if price > 0 { entry.least } else { entry.most };
    i128::from(price).saturating_mul(i128::from(times))
}

/// Whether an order has a customer, and none that isn't there.
pub(crate) fn is_order(order: &[usize], customers: usize) -> bool {
    for customer in order {
        if *customer >= customers {
            return false;
        }
    }
    !order.is_empty()
}

/// What it costs to cover a customer without a route: more than the plan that is held, if there is
/// one, or as much as the longest route, where that is enough.
fn dearest(ground: &Ground, question: &PriceQuestion) -> u64 {
    if let Some(dearest) = question.dearest {
        return dearest;
    }
    if question.plan.is_empty() {
        return ground.limit();
    }
    let mut cost: u64 = 1;
    for route in &question.plan {
        cost = cost.saturating_add(route.time);
    }
    if question.serves_once || !question.entries.is_empty() {
        cost
    } else {
        cost.min(ground.limit())
    }
}
