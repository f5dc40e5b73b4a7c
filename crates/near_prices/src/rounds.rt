//! Rounds of column generation. No clause rests on this.

use crate::budget::aim_of;
use crate::choice::Choice;
use crate::fitting::fitted;
use crate::growing::grow;
use crate::kept::Ratio;
use crate::numbers::copy_of;
use crate::patience::Patient;
use crate::pool::Pool;
use crate::pricing::Grain;
use crate::search::{PriceSearch, RoundsEnd};
use crate::watcher::{PricesProgress, PricesWatcher};
use near_completion::NearTerms;
use near_search::{Comparison, NearFound, SearchClock, SearchEnd};
use std::alloc::{AllocError, Global};

/// So many rounds are made at the most.
const MOST_ROUNDS: usize = 10_000;

/// So many routes are enough for a quick search.
const ENOUGH_QUICK: usize = 600;

/// So many are enough for an exact one.
const ENOUGH_EXACT: usize = 2_000;

/// A search with more labels is given up.
const MOST_LABELS: usize = 4_000_000;

/// A quick search that brings fewer routes is nearly at its end.
const FEW: usize = 10;

/// By so many millionths of the bound, times 8, prices may be off at the end.
const TINY: i128 = 50;

/// What a search brought.
#[derive(Clone, Copy)]
pub(crate) struct Sought {
    /// How many routes were taken.
    pub(crate) added: usize,
    /// How many there were.
    pub(crate) seen: usize,
    /// The least reduced cost, 0 where there were none.
    pub(crate) least: i64,
    /// How far prices would have to be lowered so that none of them earns.
    pub(crate) ratio: Ratio,
    pub(crate) end: SearchEnd,
}

/// What a round brought.
#[derive(Clone, Copy, Debug, PartialEq, Eq)]
enum Round {
    /// There are other columns, near sets or prices.
    GoOn,
    /// Quick searches find nothing.
    Quiet,
    End(RoundsEnd),
}

impl PriceSearch<'_> {
    /// Makes rounds until no near route earns and no near set grows.
    pub fn run<C: SearchClock, W: PricesWatcher>(
        &mut self,
        alloc: Global,
        clock: &mut C,
        watcher: &mut W,
    ) -> Result<RoundsEnd, AllocError> {
        for _ in 0..MOST_ROUNDS {
            let mut patient = Patient::new(self.first_labels(), clock);
            match self.round(alloc, &mut patient, watcher)? {
                Round::End(end) => return Ok(end),
                _ => {}
            }
        }
        Ok(RoundsEnd::Stopped)
    }

    /// So many labels are left for which the clock isn't asked.
    fn first_labels(&self) -> usize {
        self.effort.first.saturating_sub(self.work)
    }

    /// Makes a round.
    fn round<C: SearchClock, W: PricesWatcher>(
        &mut self,
        alloc: Global,
        clock: &mut C,
        watcher: &mut W,
    ) -> Result<Round, AllocError> {
        self.pool.cover.solve(alloc)?;
        self.tell(watcher);
        if self.pool.wake(alloc)? > 0 {
            return Ok(Round::GoOn);
        }
        if clock.is_up() {
            return Ok(Round::End(RoundsEnd::Stopped));
        }
        self.make_table(alloc)?;
        match self.look_quickly(alloc, clock)? {
            Round::Quiet => self.look_exactly(alloc, clock),
            other => Ok(other),
        }
    }

    /// Makes the table by the prices of the master problem: a coarse one while routes are looked
    /// for by times alone.
    fn make_table(&mut self, alloc: Global) -> Result<(), AllocError> {
        let grain = if self.is_coarse {
            Grain::Coarse
        } else {
            Grain::Fine
        };
        let prices = self.pool.cover.prices();
        let table = self.pricing.set_prices(alloc, prices, grain)?;
        self.work = self.work.saturating_add(table);
        Ok(())
    }

    /// Tells how far the rounds are.
    fn tell<W: PricesWatcher>(&mut self, watcher: &mut W) {
        self.rounds = self.rounds.saturating_add(1);
        watcher.watch_prices(PricesProgress {
            rounds: self.rounds,
            routes: self.pool.routes.len() as u64,
            prices: self.bound_of(self.pool.cover.prices()),
        });
    }

    /// Looks for routes quickly; where there are few, near sets grow.
    fn look_quickly<C: SearchClock>(
        &mut self,
        alloc: Global,
        clock: &mut C,
    ) -> Result<Round, AllocError> {
        let mut added: usize = 0;
        if self.is_coarse {
            added = self.seek(alloc, Comparison::TimesAlone, clock)?.added;
            if added >= FEW {
                return Ok(Round::GoOn);
            }
            self.is_coarse = false;
            self.make_table(alloc)?;
        }
        let sought = self.seek(alloc, Comparison::LevelsAlone, clock)?;
        if sought.end == SearchEnd::Stopped {
            return Ok(Round::End(RoundsEnd::Stopped));
        }
        self.keep(&sought);
        added = added.saturating_add(sought.added);
        if added >= FEW || self.moves_on(added) {
            return Ok(Round::GoOn);
        }
        Ok(Round::Quiet)
    }

    /// Whether near sets grow, or the master problem is solved exactly from now on, or few routes
    /// were added all the same.
    fn moves_on(&mut self, added: usize) -> bool {
        if !self.pool.cover.is_rough() && self.grow_sets() {
            self.is_coarse = true;
            return true;
        }
        if added > 0 {
            return true;
        }
        if self.pool.cover.is_rough() {
            self.pool.cover.refine();
            self.is_coarse = true;
            return true;
        }
        false
    }

    /// Keeps the prices, where they are worth more than those that are kept.
    fn keep(&mut self, sought: &Sought) {
        let floor = self.bound_of(&self.floor.prices);
        let above = self.bound_of(&self.pricing.prices).saturating_sub(floor);
        let worth = sought.ratio.part_of(above).saturating_add(floor);
        self.kept.consider(&self.pricing.prices, worth);
    }

    /// Looks for routes exactly, by whole prices.
    fn look_exactly<C: SearchClock>(
        &mut self,
        alloc: Global,
        clock: &mut C,
    ) -> Result<Round, AllocError> {
        if self.seek(alloc, Comparison::FirstSets, clock)?.added > 0 {
            return Ok(Round::GoOn);
        }
        let base = copy_of(alloc, self.pool.cover.prices())?;
        let prices = fitted(alloc, &self.pool, &base)?;
        self.pricing.set_prices(alloc, &prices, Grain::Fine)?;
        let sought = self.seek(alloc, Comparison::Exact, clock)?;
        Ok(self.judge(&sought))
    }

    /// What comes of an exact search.
    fn judge(&mut self, sought: &Sought) -> Round {
        let is_whole = sought.end == SearchEnd::Whole;
        if sought.seen == 0 {
            if !is_whole {
                return Round::End(RoundsEnd::Stopped);
            }
            self.keep(sought);
            self.is_coarse = true;
            if self.grow_sets() {
                return Round::GoOn;
            }
            return Round::End(RoundsEnd::Closed);
        }
        if sought.added == 0 {
            return Round::End(RoundsEnd::Near);
        }
        let is_near = is_whole && !self.is_exact && self.is_tiny(sought.least);
        if is_near && !self.grow_sets() {
            return Round::End(RoundsEnd::Near);
        }
        self.is_coarse = sought.added >= FEW;
        Round::GoOn
    }

    /// Whether a reduced cost is so small that prices hardly change any more.
    fn is_tiny(&self, least: i64) -> bool {
        let off = i128::from(least).saturating_neg();
        let off = off.saturating_mul(self.pool.customers as i128) / 8;
        let whole = self.bound_of(&self.pricing.prices).saturating_mul(TINY);
        off < whole / 1_000_000
    }

    /// Looks for routes that earn, and takes some of them.
    pub(crate) fn seek<C: SearchClock>(
        &mut self,
        alloc: Global,
        comparison: Comparison,
        clock: &mut C,
    ) -> Result<Sought, AllocError> {
        let enough = match comparison {
            Comparison::Exact => ENOUGH_EXACT,
            _ => ENOUGH_QUICK,
        };
        let found = self
            .pricing
            .search(alloc, &aim_of(comparison, enough, MOST_LABELS), clock)?;
        self.work = self.work.saturating_add(found.labels);
        let added = self.take_some(alloc, &found)?;
        Ok(Sought {
            added,
            seen: found.routes.len(),
            least: found.routes.first().map_or(0, |route| route.reduced),
            ratio: self.floor.worst_of(&self.pricing, &found),
            end: found.end,
        })
    }

    /// Takes routes that were found, those of least reduced cost first. How many.
    fn take_some(&mut self, alloc: Global, found: &NearFound) -> Result<usize, AllocError> {
        let mut choice = Choice::new(alloc, self.pool.customers)?;
        for one in &found.routes {
            if choice.is_full() {
                break;
            }
            let order = one.customers(alloc, self.pricing.ground)?;
            let route = self.pool.route(alloc, order, one.time)?;
            if choice.take(&route)? {
                self.pool.put_column(alloc, route)?;
            }
        }
        Ok(choice.len())
    }

    /// Lets near sets grow by the routes of the optimum. Whether any grows.
    fn grow_sets(&mut self) -> bool {
        if self.growths == 0 {
            return false;
        }
        let grown = grow_by(&self.pool, &mut self.pricing.terms);
        if grown > 0 {
            self.growths = self.growths.saturating_sub(1);
            self.pool.ban_others(&self.pricing.terms);
            self.pricing.forget_table();
        }
        grown > 0
    }
}

/// Lets near sets grow by the routes of the optimum. How many do.
fn grow_by(pool: &Pool, terms: &mut NearTerms) -> usize {
    let mut grown: usize = 0;
    for route in &pool.routes {
        if pool.is_used(route) {
            grown = grown.saturating_add(grow(terms, &route.order));
        }
    }
    grown
}
