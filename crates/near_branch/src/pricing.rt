//! Prices of nodes. No clause rests on this.

use crate::clock::{BranchClock, Early};
use crate::fork::Turn;
use crate::growth::Growth;
use crate::prices::{LeafPrices, Worth};
use crate::site::{copied, site_of};
use near_prices::{
    EntryRange, Handed, KnownRoute, PriceQuestion, PriceSearch, PricesWatcher, RoundsEnd,
};
use std::alloc::{AllocError, Global};
use std::mem;

/// About so many layers the tables have, as those of lists have, and a fourth of it where routes
/// are looked for quickly.
const LAYERS: usize = 120;

/// So many where nodes are only estimated.
const FEW_LAYERS: usize = 60;

/// So often near sets grow at the most at a node.
const GROWTHS: usize = 60;

/// What it costs to serve a customer without a route, where routes cost nothing.
const HELP: u64 = 1 << 30;

/// Routes are columns at once where a node is priced whose reduced cost is at most so many halves
/// of the gap. Others wait until they earn, so that fewer are looked through at each pivot.
const FEW_HALVES: u64 = 1;

/// So many where candidates are scored.
const HALVES: u64 = 3;

/// How a search at a node begins.
#[derive(Clone, Copy)]
pub(crate) struct Start {
    /// The weight of a unit of scaled time.
    pub(crate) weight: u32,
    /// About so many layers the tables have.
    pub(crate) layers: usize,
    /// Routes are columns at once whose reduced cost by the prices above is at most so many halves
    /// of the gap.
    pub(crate) halves: u64,
}

impl Start {
    /// That of a search that is to come to its end.
    fn whole(weight: u32) -> Start {
        Start {
            weight,
            layers: LAYERS,
            halves: FEW_HALVES,
        }
    }

    /// That of an estimate.
    pub(crate) fn estimate(weight: u32) -> Start {
        Start {
            weight,
            layers: FEW_LAYERS,
            halves: FEW_HALVES,
        }
    }

    /// That by which candidates are scored, over the routes that are known.
    pub(crate) fn scoring(weight: u32) -> Start {
        Start {
            weight,
            layers: FEW_LAYERS,
            halves: HALVES,
        }
    }
}

/// What comes of pricing a node.
#[derive(Drop)]
pub(crate) struct Priced {
    /// `None` where the time was up.
    prices: Option<LeafPrices>,
    /// Whether customers or sets are left to cover without routes.
    lacks: bool,
}

impl<'a> Growth<'a> {
    /// Prices by which no route earns that goes to the end of these turns: those found, or those of
    /// the node above where they are worth more.
    pub(crate) fn price<C: BranchClock, W: PricesWatcher>(
        &mut self,
        alloc: Global,
        turns: &[Turn],
        above: Option<&LeafPrices>,
        clock: &mut Early<'_, C>,
        watcher: &mut W,
    ) -> Result<LeafPrices, AllocError> {
        let entries = copied(
            alloc,
            &site_of(alloc, self.ground.customers(), turns)?.entries,
        )?;
        clock.looks = self.patience;
        let priced = self.search(alloc, turns, above, self.weight, clock, watcher)?;
        self.priced = self.priced.saturating_add(1);
        let Priced { prices, lacks } = priced;
        let best = self.better(alloc, &entries, above, prices)?;
        if !lacks || best.worth().reaches(self.held.cost) {
            return Ok(best);
        }
        clock.looks = self.patience;
        let Priced { prices, lacks: _ } = self.search(alloc, turns, None, 0, clock, watcher)?;
        match prices {
            Some(of_none) if of_none.worth() == Worth::NoPlan => Ok(of_none),
            _ => Ok(best),
        }
    }

    /// The prices that were found, or those of the node above where they are worth more; where
    /// there are none, prices of 0.
    fn better(
        &self,
        alloc: Global,
        entries: &[EntryRange],
        above: Option<&LeafPrices>,
        found: Option<LeafPrices>,
    ) -> Result<LeafPrices, AllocError> {
        let known = match above {
            Some(prices) => prices.at(alloc, entries)?,
            None => self.no_prices(alloc)?,
        };
        match found {
            Some(own) if own.worth().rank() >= known.worth().rank() => Ok(own),
            _ => Ok(known),
        }
    }

    /// Prices of 0.
    fn no_prices(&self, alloc: Global) -> Result<LeafPrices, AllocError> {
        Ok(LeafPrices {
            weight: self.weight,
            prices: vec![in alloc; 0; self.ground.customers()]?,
            entry_prices: Vec::new(alloc),
            near: self.near.clone()?,
            sum: 0,
        })
    }

    /// Looks for prices by a weight of time.
    fn search<C: BranchClock, W: PricesWatcher>(
        &mut self,
        alloc: Global,
        turns: &[Turn],
        above: Option<&LeafPrices>,
        weight: u32,
        clock: &mut Early<'_, C>,
        watcher: &mut W,
    ) -> Result<Priced, AllocError> {
        let mut search = self.begin(alloc, turns, above, Start::whole(weight))?;
        let end = search.run(alloc, clock, watcher)?;
        let mut priced = Priced {
            prices: None,
            lacks: false,
        };
        if end != RoundsEnd::Stopped {
            if weight > 0 {
                if let Some(plan) = search.whole_plan(alloc)? {
                    self.hold(plan);
                }
            }
            priced.lacks = search.lacks();
            priced.prices = Some(self.closed(alloc, &mut search, end, weight)?);
        }
        self.pool = search.into_routes(alloc)?;
        Ok(priced)
    }

    /// The prices at the end of rounds, made whole.
    fn closed(
        &mut self,
        alloc: Global,
        search: &mut PriceSearch<'a>,
        end: RoundsEnd,
        weight: u32,
    ) -> Result<LeafPrices, AllocError> {
        let found = search.closed_prices(alloc, end)?;
        self.near = found.near.clone()?;
        Ok(LeafPrices {
            weight,
            prices: found.prices,
            entry_prices: found.entry_prices,
            near: found.near,
            sum: found.bound,
        })
    }

    /// A search for prices at the end of these turns, which takes the routes over that are known;
    /// where the prices above are told, those are columns at once that cost little more than they
    /// earn by these.
    pub(crate) fn begin(
        &mut self,
        alloc: Global,
        turns: &[Turn],
        above: Option<&LeafPrices>,
        start: Start,
    ) -> Result<PriceSearch<'a>, AllocError> {
        let weight = start.weight;
        let site = site_of(alloc, self.ground.customers(), turns)?;
        let question = PriceQuestion {
            follow: site.follow,
            entries: site.entries,
            serves_once: true,
            near: self.near.clone()?,
            plan: Vec::new(alloc),
            seen: Vec::new(alloc),
            layers: start.layers,
            most_growths: GROWTHS,
            weight,
            dearest: Some(if weight == 0 { HELP } else { self.dearest() }),
            is_exact: true,
        };
        let mut search = PriceSearch::new(alloc, self.inst, self.ground, question)?;
        let routes = mem::replace(&mut self.pool, Vec::new(alloc));
        search.take_over(alloc, self.handed(alloc, routes, above, start)?)?;
        if above.is_some() || weight == 0 {
            search.refine();
        }
        Ok(search)
    }

    /// Routes, and which of them are columns at once.
    fn handed(
        &self,
        alloc: Global,
        routes: Vec<KnownRoute>,
        above: Option<&LeafPrices>,
        start: Start,
    ) -> Result<Handed, AllocError> {
        let weight = start.weight;
        let mut handed = Handed {
            routes,
            prices: Vec::new(alloc),
            entry_prices: Vec::new(alloc),
            bar: if weight == 0 { 0 } else { -1 },
        };
        if let Some(prices) = above {
            let gap = self.gap_of(prices.sum);
            let bar = (gap / 2)
                .saturating_mul(start.halves)
                .saturating_add(u64::from(weight).saturating_mul(100));
            handed.prices = prices.prices.clone()?;
            handed.entry_prices = prices.entry_prices.clone()?;
            handed.bar = i64::try_from(bar).unwrap_or(i64::MAX);
        }
        Ok(handed)
    }
}
