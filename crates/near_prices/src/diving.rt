//! Plans by diving: routes of the optimum are taken for good, one after another, and those who are
//! left are priced again (as Sadykov, Vanderbeck, Pessoa, Tahiri, Uchoa 2019 do). No clause rests
//! on this.

use crate::numbers::{copy_of, is_in, put, signed, with};
use crate::pool::ban;
use crate::pricing::Grain;
use crate::question::KnownRoute;
use crate::routes::{Route, Standing};
use crate::search::PriceSearch;
use customer_sets::LargeSet;
use near_search::{Comparison, SearchClock};
use std::alloc::{AllocError, Global};

/// So many rounds are made behind a route that is taken, at the most.
const MOST_ROUNDS: usize = 10;

/// A further route is taken without new prices where its amount is this, in units of 2^-32.
const NEARLY_WHOLE: i64 = 3 << 30;

impl PriceSearch<'_> {
    /// What the optimum of the master problem costs after so many quick rounds, weighted: an
    /// estimate.
    pub fn estimate<C: SearchClock>(
        &mut self,
        alloc: Global,
        rounds: usize,
        clock: &mut C,
    ) -> Result<i128, AllocError> {
        self.refine();
        self.solve_known(alloc)?;
        for _ in 0..rounds {
            if clock.is_up() {
                break;
            }
            self.set_prices_of_rest(alloc)?;
            if self.seek(alloc, Comparison::LevelsAlone, clock)?.added == 0 {
                break;
            }
            self.solve_known(alloc)?;
        }
        Ok(self.worth())
    }

    /// Makes a plan by diving: first the route of the optimum is taken whose amount has a rank,
    /// the greatest first, and then those of the greatest amounts. No two routes serve the same
    /// customer; some customers may be left. The prices are others then, and which routes may be
    /// taken: so it is asked for behind the answer alone.
    pub fn dive<C: SearchClock>(
        &mut self,
        alloc: Global,
        rank: usize,
        clock: &mut C,
    ) -> Result<Vec<KnownRoute>, AllocError> {
        self.begin_again(alloc)?;
        self.price_again(alloc, MOST_ROUNDS, clock)?;
        let mut taken = Vec::new(alloc);
        let mut next = self.ranked(alloc, rank)?;
        for _ in 0..self.pool.customers {
            let Some(place) = next else {
                break;
            };
            self.take_for_good(place, &mut taken)?;
            next = self.next(alloc, clock)?;
        }
        Ok(taken)
    }

    /// Lets all near routes be taken again, for all customers.
    fn begin_again(&mut self, alloc: Global) -> Result<(), AllocError> {
        self.settled = LargeSet::empty();
        self.pool.begin_again(alloc)?;
        self.pool.ban_others(&self.pricing.terms);
        self.pool.ban_forbidden(&self.pricing.follow);
        Ok(())
    }

    /// Makes so many quick rounds at the most for those who are left, and solves the master
    /// problem.
    fn price_again<C: SearchClock>(
        &mut self,
        alloc: Global,
        rounds: usize,
        clock: &mut C,
    ) -> Result<(), AllocError> {
        for _ in 0..rounds {
            self.pool.cover.solve(alloc)?;
            if self.pool.wake(alloc)? > 0 {
                continue;
            }
            if clock.is_up() {
                return Ok(());
            }
            self.set_prices_of_rest(alloc)?;
            if self.seek(alloc, Comparison::LevelsAlone, clock)?.added == 0 {
                return Ok(());
            }
        }
        self.pool.cover.solve(alloc)
    }

    /// Takes the prices of the master problem; whoever isn't served any more costs so much that no
    /// route to him earns.
    fn set_prices_of_rest(&mut self, alloc: Global) -> Result<(), AllocError> {
        let mut prices = copy_of(alloc, self.pool.cover.prices())?;
        for customer in 0..self.pool.customers {
            if is_in(self.settled, customer) {
                put(
                    &mut prices,
                    customer,
                    signed(self.pool.dearest).saturating_neg(),
                );
            }
        }
        self.pricing.set_prices(alloc, &prices, Grain::Fine)?;
        Ok(())
    }

    /// The place of the route that is taken next, if somebody is left and there is one: amounts are
    /// found anew unless one is nearly whole.
    fn next<C: SearchClock>(
        &mut self,
        alloc: Global,
        clock: &mut C,
    ) -> Result<Option<usize>, AllocError> {
        if self.settled.len() >= self.pool.customers {
            return Ok(None);
        }
        match self.greatest() {
            Some((place, amount)) if amount >= NEARLY_WHOLE => Ok(Some(place)),
            _ => {
                self.price_again(alloc, MOST_ROUNDS, clock)?;
                Ok(self.greatest().map(|(place, _)| place))
            }
        }
    }

    /// The place of the route of this rank by its amount, the greatest first, among those that may
    /// be taken for good.
    fn ranked(&self, alloc: Global, rank: usize) -> Result<Option<usize>, AllocError> {
        let mut ranked = Vec::new(alloc);
        for (place, route) in self.pool.routes.iter().enumerate() {
            if self.may_be_taken(route) {
                ranked.push((self.pool.amount_of(route).saturating_neg(), place))?;
            }
        }
        ranked.sort()?;
        Ok(ranked.get(rank).map(|(_, place)| *place))
    }

    /// The place of the route of the greatest amount among those that may be taken for good, with
    /// its amount.
    fn greatest(&self) -> Option<(usize, i64)> {
        let mut greatest: Option<(usize, i64)> = None;
        for (place, route) in self.pool.routes.iter().enumerate() {
            let most = greatest.map_or(-1, |(_, most)| most);
            let amount = self.pool.amount_of(route);
            if self.may_be_taken(route) && amount > most {
                greatest = Some((place, amount));
            }
        }
        greatest
    }

    /// Whether a route is a column that serves each of its customers once, and nobody who is served
    /// by one that is taken for good.
    fn may_be_taken(&self, route: &Route) -> bool {
        let again = route.served.common(self.settled);
        matches!(&route.standing, Standing::Column(_)) && route.is_plain() && again.is_empty()
    }

    /// Takes the route at a place: other routes for its customers are banned.
    fn take_for_good(
        &mut self,
        place: usize,
        taken: &mut Vec<KnownRoute>,
    ) -> Result<(), AllocError> {
        let Some(own) = self.pool.routes.get(place) else {
            return Ok(());
        };
        let order = own.order.clone()?;
        for customer in &order {
            self.settled = with(self.settled, *customer);
        }
        let served = own.served;
        taken.push(KnownRoute {
            order,
            time: own.time,
        })?;
        self.pool.ban_beside(place, served);
        Ok(())
    }
}

impl crate::pool::Pool {
    /// Bans the routes but one that serve somebody of a set.
    fn ban_beside(&mut self, place: usize, served: LargeSet) {
        for (other, route) in self.routes.iter_mut().enumerate() {
            let again = route.served.common(served);
            if other != place && route.is_open() && !again.is_empty() {
                ban(&mut self.cover, route);
            }
        }
    }
}
