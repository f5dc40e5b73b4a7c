//! Nodes that are split. No clause rests on this.

use crate::candidates::candidates;
use crate::clock::{BranchClock, Early};
use crate::fork::{Fork, Turn};
use crate::growth::Growth;
use crate::node::{Node, Standing, turns_to};
use crate::prices::LeafPrices;
use crate::pricing::Start;
use crate::scores::{Above, further, with_scores};
use crate::site::site_of;
use crate::watcher::BranchWatcher;
use std::alloc::{AllocError, Global};

impl<'a> Growth<'a> {
    /// Splits a leaf, and prices both nodes. Whether it was.
    pub(crate) fn split<C: BranchClock, W: BranchWatcher>(
        &mut self,
        alloc: Global,
        place: usize,
        clock: &mut Early<'_, C>,
        watcher: &mut W,
    ) -> Result<bool, AllocError> {
        let turns = turns_to(alloc, &self.nodes, place)?;
        let Some(prices) = self.prices_of(alloc, place)? else {
            return Ok(false);
        };
        let above = Above {
            place,
            turns: &turns,
            prices: &prices,
        };
        let Some(fork) = self.choose(alloc, above, clock)? else {
            self.give_up(place);
            return Ok(false);
        };
        self.prune();
        let first = self.nodes.len();
        for turn in fork.turns() {
            self.add(alloc, above, &turn, clock, watcher)?;
            watcher.watch_branch(self.progress());
        }
        if let Some(node) = self.nodes.get_mut(place) {
            node.standing = Standing::Forked {
                fork,
                first,
                second: first.saturating_add(1),
            };
        }
        Ok(true)
    }

    /// The prices of the node at a place.
    fn prices_of(&self, alloc: Global, place: usize) -> Result<Option<LeafPrices>, AllocError> {
        let Some(node) = self.nodes.get(place) else {
            return Ok(None);
        };
        let own = &node.prices;
        Ok(Some(LeafPrices {
            weight: own.weight,
            prices: own.prices.clone()?,
            entry_prices: own.entry_prices.clone()?,
            near: own.near.clone()?,
            sum: own.sum,
        }))
    }

    /// On what a node is split; `None` where nothing is known.
    fn choose<C: BranchClock>(
        &mut self,
        alloc: Global,
        above: Above<'_>,
        clock: &mut Early<'_, C>,
    ) -> Result<Option<Fork>, AllocError> {
        let mut search = self.begin(
            alloc,
            above.turns,
            Some(above.prices),
            Start::scoring(self.weight),
        )?;
        search.solve_known(alloc)?;
        if let Some(plan) = search.whole_plan(alloc)? {
            self.hold(plan);
        }
        let site = site_of(alloc, self.ground.customers(), above.turns)?;
        let used = search.used(alloc)?;
        let customers = self.ground.customers();
        let forks = candidates(alloc, customers, &site, &used, &self.family)?;
        let scored = with_scores(alloc, &search, &forks, self.gap_of(above.prices.sum))?;
        self.pool = search.into_routes(alloc)?;
        self.best_of(alloc, above, &scored, clock)
    }

    /// Prices a node below another one, and puts it behind the others.
    fn add<C: BranchClock, W: BranchWatcher>(
        &mut self,
        alloc: Global,
        above: Above<'_>,
        turn: &Turn,
        clock: &mut Early<'_, C>,
        watcher: &mut W,
    ) -> Result<(), AllocError> {
        let turns = further(alloc, above.turns, turn)?;
        let prices = self.price(alloc, &turns, Some(above.prices), clock, watcher)?;
        self.nodes.push(Node {
            above: Some((above.place, *turn)),
            standing: Standing::Open,
            prices,
            listing: None,
        })?;
        Ok(())
    }
}
