//! What is answered. No clause rests on this.

use crate::budget::Budget;
use crate::numbers::copy_of;
use crate::question::PriceQuestion;
use crate::search::{PriceSearch, RoundsEnd};
use crate::watcher::PricesWatcher;
use customer_sets::LargeSet;
use instance_reader::Instance;
use near_completion::Ground;
use near_search::{NoClock, SearchClock};
use std::alloc::{AllocError, Global};

/// So often prices near the optimum are tested.
const TESTS: usize = 50;

/// So many labels are made in these tests.
const TEST_LABELS: usize = 20_000_000;

/// As a part of the work of the rounds, so many labels are made to raise prices that were closed.
const RAISE_PART: usize = 3;

/// A route that is known, at the end.
#[derive(Drop)]
pub struct PricedRoute {
    /// The customers that it serves, by number and in order.
    pub order: Vec<usize>,
    /// What it takes, in scaled time.
    pub time: u64,
    /// What it takes beyond what it earns.
    pub reduced: i64,
    /// To which amount the optimum takes it, in units of 2^-32.
    pub amount: i64,
    /// Whether it is a near route that may be taken.
    pub is_near: bool,
}

/// Prices by which no near route earns, as far as the search knows, and what was found beside them.
#[derive(Drop)]
pub struct NearPrices {
    /// What serving each customer earns, by number.
    pub prices: Vec<i64>,
    /// What entering each counted set earns.
    pub entry_prices: Vec<i64>,
    /// What serving each customer earns by the floor of prices, by which no route earns.
    pub floor: Vec<i64>,
    /// The near sets, by customer.
    pub near: Vec<LargeSet>,
    /// The sum of the prices, with what entries earn at the least.
    pub bound: i128,
    /// Whether no near route earns by the prices, as far as the search knows. Not so where the
    /// clock ended what closes them: they are lowered so far then as was known to be of use.
    pub is_closed: bool,
    /// For each customer the place of a route that takes no more than it earns, but for less than
    /// one unit for each time it serves him, if there is one.
    pub tight: Vec<Option<usize>>,
    /// The routes that are known.
    pub routes: Vec<PricedRoute>,
    /// How the rounds ended.
    pub end: RoundsEnd,
    /// How many rounds were made.
    pub rounds: u64,
}

/// Prices by which no near route earns, as far as the search knows.
#[derive(Drop)]
pub struct ClosedPrices {
    /// What serving each customer earns, by number.
    pub prices: Vec<i64>,
    /// What entering each counted set earns.
    pub entry_prices: Vec<i64>,
    /// The near sets, by customer.
    pub near: Vec<LargeSet>,
    /// The sum of the prices, with what entries earn at the least.
    pub bound: i128,
}

/// Finds prices. The clock stops rounds, but not what makes closed prices of those at hand, for
/// which a budget of labels is taken. The only `Err` is want of memory.
pub fn find_prices<C: SearchClock, W: PricesWatcher>(
    alloc: Global,
    inst: &Instance,
    ground: &Ground,
    question: PriceQuestion,
    clock: &mut C,
    watcher: &mut W,
) -> Result<NearPrices, AllocError> {
    let mut search = PriceSearch::new(alloc, inst, ground, question)?;
    let end = search.run(alloc, clock, watcher)?;
    search.finish(alloc, end, &mut NoClock)
}

impl PriceSearch<'_> {
    /// The prices at the end of rounds, made whole, as far as the clock lets them be closed.
    pub fn finish<C: SearchClock>(
        &mut self,
        alloc: Global,
        end: RoundsEnd,
        clock: &mut C,
    ) -> Result<NearPrices, AllocError> {
        let is_closed = self.end(alloc, end, clock)?;
        self.answer(alloc, end, is_closed)
    }

    /// Makes the prices whole at the end of rounds. Whether they are closed; else the time is up.
    fn end<C: SearchClock>(
        &mut self,
        alloc: Global,
        end: RoundsEnd,
        clock: &mut C,
    ) -> Result<bool, AllocError> {
        let is_closed = match end {
            RoundsEnd::Closed => true,
            RoundsEnd::Near => self.settle_last(alloc, clock)?,
            RoundsEnd::Stopped => false,
        };
        Ok(is_closed || self.close(alloc, clock)?)
    }

    /// Settles the last prices. Whether no route earns by them.
    fn settle_last<C: SearchClock>(
        &mut self,
        alloc: Global,
        clock: &mut C,
    ) -> Result<bool, AllocError> {
        let base = copy_of(alloc, self.pool.cover.prices())?;
        self.settle(alloc, &base, TESTS, &mut Budget::of(TEST_LABELS), clock)
    }

    /// Closes the best prices so far: they are lowered toward the floor, and then raised, where
    /// that helps; where the budget doesn't reach, those of the floor are taken. Whether they are
    /// closed; else the time is up.
    fn close<C: SearchClock>(&mut self, alloc: Global, clock: &mut C) -> Result<bool, AllocError> {
        let mut best = if self.kept.is_any() {
            self.kept.prices.clone()?
        } else {
            copy_of(alloc, self.pool.cover.prices())?
        };
        let mut budget = Budget::of(self.effort.closing);
        let is_scaled = self.scale(alloc, &mut best, &mut budget, clock)?;
        let is_closed = is_scaled || !clock.is_up();
        if is_scaled {
            self.raise(alloc, &mut best, self.raise_budget(), clock)?;
        } else if is_closed {
            best = copy_of(alloc, &self.floor.prices)?;
        }
        self.pricing.take_prices(alloc, &best)?;
        Ok(is_closed)
    }

    /// What it may take to raise prices: more where rounds took more.
    fn raise_budget(&self) -> Budget {
        let (least, most) = self.effort.raising;
        Budget::of((self.work / RAISE_PART).max(least).min(most))
    }

    /// The prices alone at the end of rounds, made whole.
    pub fn closed_prices(
        &mut self,
        alloc: Global,
        end: RoundsEnd,
    ) -> Result<ClosedPrices, AllocError> {
        self.end(alloc, end, &mut NoClock)?;
        let mut found = ClosedPrices {
            prices: Vec::new(alloc),
            entry_prices: Vec::new(alloc),
            near: Vec::new(alloc),
            bound: self.bound_of(&self.pricing.prices),
        };
        for customer in 0..self.pool.customers {
            found.prices.push(self.pricing.terms.price(customer))?;
            found.near.push(self.pricing.terms.near(customer))?;
        }
        self.push_entry_prices(&mut found.entry_prices)?;
        Ok(found)
    }

    /// What is answered, by the prices at hand.
    fn answer(
        &self,
        alloc: Global,
        end: RoundsEnd,
        is_closed: bool,
    ) -> Result<NearPrices, AllocError> {
        let mut found = NearPrices {
            prices: Vec::new(alloc),
            entry_prices: Vec::new(alloc),
            floor: copy_of(alloc, &self.floor.prices)?,
            near: Vec::new(alloc),
            bound: self.bound_of(&self.pricing.prices),
            is_closed,
            tight: Vec::new(alloc),
            routes: Vec::with_capacity(alloc, self.pool.routes.len())?,
            end,
            rounds: self.rounds,
        };
        for customer in 0..self.pool.customers {
            found.prices.push(self.pricing.terms.price(customer))?;
            found.near.push(self.pricing.terms.near(customer))?;
            found.tight.push(self.tight_place(customer))?;
        }
        self.push_entry_prices(&mut found.entry_prices)?;
        self.push_routes(&mut found.routes)?;
        Ok(found)
    }

    /// Appends what entries earn.
    fn push_entry_prices(&self, prices: &mut Vec<i64>) -> Result<(), AllocError> {
        for place in 0..self.pool.entries.len() {
            prices.push(self.pricing.entry_price(&self.pricing.prices, place))?;
        }
        Ok(())
    }

    /// Appends the routes that are known.
    fn push_routes(&self, routes: &mut Vec<PricedRoute>) -> Result<(), AllocError> {
        for route in &self.pool.routes {
            routes.push(PricedRoute {
                order: route.order.clone()?,
                time: route.time,
                reduced: route.reduced_cost(&self.pricing.prices),
                amount: self.pool.amount_of(route),
                is_near: route.is_open(),
            })?;
        }
        Ok(())
    }
}
