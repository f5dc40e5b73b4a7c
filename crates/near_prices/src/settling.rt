//! Whole prices by which no near route earns, as high as the known routes let them. No clause rests
//! on this.

use crate::budget::{Budget, aim_of};
use crate::fitting::fitted;
use crate::pricing::Grain;
use crate::search::PriceSearch;
use near_search::{Aim, Comparison, NearFound, SearchClock, SearchEnd};
use std::alloc::{AllocError, Global};

/// So many routes that earn are enough.
const ENOUGH: usize = 2_000;

/// What prices turned out to be.
#[derive(Clone, Copy, Debug, PartialEq, Eq)]
pub(crate) enum Tested {
    /// No near route earns.
    Closed,
    /// Some do.
    Earning,
    /// It isn't known.
    Open,
}

impl PriceSearch<'_> {
    /// Lets prices be such that no near route earns by them and known routes let none be raised: so
    /// often they are fitted and tested at the most, and what earns joins the routes that are
    /// known. Whether no route earns.
    pub(crate) fn settle<C: SearchClock>(
        &mut self,
        alloc: Global,
        base: &[i64],
        tests: usize,
        budget: &mut Budget,
        clock: &mut C,
    ) -> Result<bool, AllocError> {
        for _ in 0..tests {
            if budget.is_spent() {
                return Ok(false);
            }
            let prices = fitted(alloc, &self.pool, base)?;
            budget.spend(self.pricing.set_prices(alloc, &prices, Grain::Fine)?);
            match self.test(alloc, budget, clock)? {
                Tested::Closed => return Ok(true),
                Tested::Earning => {}
                Tested::Open => return Ok(false),
            }
        }
        Ok(false)
    }

    /// Tests the prices. Routes that earn join those that are known.
    fn test<C: SearchClock>(
        &mut self,
        alloc: Global,
        budget: &mut Budget,
        clock: &mut C,
    ) -> Result<Tested, AllocError> {
        for comparison in [
            Comparison::TimesAlone,
            Comparison::LevelsAlone,
            Comparison::Exact,
        ] {
            let found = self.look(
                alloc,
                aim_of(comparison, ENOUGH, budget.left()),
                budget,
                clock,
            )?;
            if !found.routes.is_empty() {
                self.learn(alloc, &found)?;
                return Ok(Tested::Earning);
            }
            if found.end != SearchEnd::Whole {
                return Ok(Tested::Open);
            }
        }
        Ok(Tested::Closed)
    }

    /// Looks for routes that earn, at the cost of a budget, which ends where the time is up.
    pub(crate) fn look<C: SearchClock>(
        &self,
        alloc: Global,
        aim: Aim,
        budget: &mut Budget,
        clock: &mut C,
    ) -> Result<NearFound, AllocError> {
        let found = self.pricing.search(alloc, &aim, clock)?;
        budget.spend(found.labels);
        if found.end == SearchEnd::Stopped {
            budget.end();
        }
        Ok(found)
    }

    /// Lets routes that were found wait.
    pub(crate) fn learn(&mut self, alloc: Global, found: &NearFound) -> Result<(), AllocError> {
        for one in &found.routes {
            let order = one.customers(alloc, self.pricing.ground)?;
            let route = self.pool.route(alloc, order, one.time)?;
            self.pool.put(route)?;
        }
        Ok(())
    }
}
