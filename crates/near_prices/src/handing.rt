//! Routes that are handed from one search to the next. No clause rests on this.

use crate::numbers::at;
use crate::question::{Handed, KnownRoute};
use crate::routes::{Route, Standing};
use crate::search::{PriceSearch, is_order};
use std::alloc::{AllocError, Global};

/// So little may be covered without routes, in units of 2^-32.
const TINY: i64 = 1 << 20;

/// So often routes that wait are looked through at the most.
const MOST_LOOKS: usize = 1_000;

impl PriceSearch<'_> {
    /// Takes routes over from another search. Those that are no near routes any more are left out,
    /// and those on which somebody comes next who may not are kept aside.
    pub fn take_over(&mut self, alloc: Global, handed: Handed) -> Result<(), AllocError> {
        let Handed {
            routes,
            prices,
            entry_prices,
            bar,
        } = handed;
        let rows = self.row_prices(alloc, &prices, &entry_prices)?;
        for one in routes {
            let KnownRoute { order, time } = one;
            if is_order(&order, self.pool.customers) {
                let route = self.pool.route(alloc, order, time)?;
                self.take_route(alloc, route, &rows, bar)?;
            }
        }
        Ok(())
    }

    /// Takes a route over, as a column where its reduced cost is at most the bar.
    fn take_route(
        &mut self,
        alloc: Global,
        mut route: Route,
        rows: &[i64],
        bar: i64,
    ) -> Result<(), AllocError> {
        if !route.is_near(&self.pricing.terms) {
            return Ok(());
        }
        if !route.is_allowed(&self.pricing.follow) {
            route.standing = Standing::Banned;
            return self.pool.put(route);
        }
        if route.reduced_cost(rows) <= bar {
            self.pool.put_column(alloc, route)
        } else {
            self.pool.put(route)
        }
    }

    /// The prices of the rows, by those of customers and entries.
    fn row_prices(
        &self,
        alloc: Global,
        prices: &[i64],
        entry_prices: &[i64],
    ) -> Result<Vec<i64>, AllocError> {
        let mut rows = Vec::with_capacity(alloc, self.pricing.prices.len())?;
        for customer in 0..self.pool.customers {
            rows.push(at(prices, customer))?;
        }
        for place in 0..self.pool.entries.len() {
            let price = at(entry_prices, place);
            rows.push(price.max(0))?;
            rows.push(price.min(0))?;
        }
        Ok(rows)
    }

    /// Gives back the routes that are known.
    pub fn into_routes(self, alloc: Global) -> Result<Vec<KnownRoute>, AllocError> {
        let PriceSearch {
            pricing: _,
            pool,
            kept: _,
            floor: _,
            rounds: _,
            work: _,
            effort: _,
            growths: _,
            is_coarse: _,
            is_exact: _,
            settled: _,
        } = self;
        pool.into_routes(alloc)
    }

    /// Lets the master problem be solved exactly from now on.
    pub fn refine(&mut self) {
        self.pool.cover.refine();
    }

    /// Solves the master problem over the routes that are known.
    pub fn solve_known(&mut self, alloc: Global) -> Result<(), AllocError> {
        for _ in 0..MOST_LOOKS {
            self.pool.cover.solve(alloc)?;
            if self.pool.wake(alloc)? == 0 {
                return Ok(());
            }
        }
        Ok(())
    }

    /// What the optimum of the master problem costs, weighted, where it is solved exactly.
    pub fn worth(&self) -> i128 {
        self.pool.cover.worth()
    }

    /// Whether the optimum covers customers or sets without routes.
    pub fn lacks(&self) -> bool {
        self.pool.cover.lacking() > TINY
    }
}
