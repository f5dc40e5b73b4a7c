//! Prices that are lowered toward their floor until no near route earns by them. No clause rests on
//! this.

use crate::budget::{Budget, aim_of};
use crate::kept::Ratio;
use crate::pricing::Grain;
use crate::search::PriceSearch;
use near_search::{Comparison, SearchClock, SearchEnd};
use std::alloc::{AllocError, Global};

/// So often prices are lowered at the most at one level of comparing labels.
const MOST_TIMES: usize = 60;

/// So often prices that are raised are tested at the most.
const MOST_TESTS: usize = 60;

/// So many routes that earn are enough.
const ENOUGH: usize = 300;

/// So much of prices above the floor is left where it isn't known whether a route earns.
const LESS: Ratio = Ratio { time: 7, earned: 8 };

/// No search makes fewer labels at the most.
const LEAST_LABELS: usize = 20_000;

impl PriceSearch<'_> {
    /// Raises prices by which no route earns, as far as known routes let them, until no other route
    /// earns by those either; where budget and time don't reach, they are lowered again. Prices
    /// stay that can't be made better so.
    pub(crate) fn raise<C: SearchClock>(
        &mut self,
        alloc: Global,
        best: &mut Vec<i64>,
        budget: Budget,
        clock: &mut C,
    ) -> Result<(), AllocError> {
        let (mut most, mut rest) = budget.parted();
        let is_closed = self.settle(alloc, best, MOST_TESTS, &mut most, clock)?;
        let mut other = self.pricing.prices.clone()?;
        let is_closed = is_closed || self.scale(alloc, &mut other, &mut rest, clock)?;
        if is_closed && self.bound_of(&other) > self.bound_of(best) {
            *best = other;
        }
        Ok(())
    }

    /// Lowers prices toward the floor, all by the same part, until no near route earns by them, at
    /// one level of comparing labels after the other. Whether none does; else the budget or the
    /// time didn't reach.
    pub(crate) fn scale<C: SearchClock>(
        &mut self,
        alloc: Global,
        prices: &mut [i64],
        budget: &mut Budget,
        clock: &mut C,
    ) -> Result<bool, AllocError> {
        self.floor.lower(self.worst_known(prices), prices);
        for comparison in [
            Comparison::TimesAlone,
            Comparison::LevelsAlone,
            Comparison::Exact,
        ] {
            if !self.scale_at(alloc, prices, comparison, budget, clock)? {
                return Ok(false);
            }
        }
        Ok(true)
    }

    /// How far prices have to be lowered so that no known route earns.
    fn worst_known(&self, prices: &[i64]) -> Ratio {
        let mut worst = Ratio::whole();
        for route in &self.pool.routes {
            let reduced = route.reduced_cost(prices);
            if route.is_open() && reduced < 0 {
                worst = worst.least(self.floor.ratio_of(route, reduced));
            }
        }
        worst
    }

    /// The same at one level.
    fn scale_at<C: SearchClock>(
        &mut self,
        alloc: Global,
        prices: &mut [i64],
        comparison: Comparison,
        budget: &mut Budget,
        clock: &mut C,
    ) -> Result<bool, AllocError> {
        for _ in 0..MOST_TIMES {
            if budget.is_spent() || clock.is_up() {
                return Ok(false);
            }
            budget.spend(
                self.pricing
                    .set_prices(alloc, prices, grain_for(comparison))?,
            );
            let labels = (budget.left() / 2).max(LEAST_LABELS);
            let found = self.look(alloc, aim_of(comparison, ENOUGH, labels), budget, clock)?;
            if !found.routes.is_empty() {
                let ratio = self.floor.worst_of(&self.pricing, &found);
                self.floor.lower(ratio, prices);
                self.learn(alloc, &found)?;
            } else if found.end == SearchEnd::Whole {
                return Ok(true);
            } else {
                self.floor.lower(LESS, prices);
            }
        }
        Ok(false)
    }
}

/// How fine the table is for a search at a level of comparing labels.
fn grain_for(comparison: Comparison) -> Grain {
    match comparison {
        Comparison::TimesAlone => Grain::Coarse,
        _ => Grain::Fine,
    }
}
