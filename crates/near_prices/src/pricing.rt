//! What routes are searched by, and the search. No clause rests on this.

use crate::numbers::at;
use crate::question::EntryRange;
use instance_reader::Instance;
use near_completion::{Follow, Ground, NearTerms, WayTable};
use near_search::{Aim, Comparison, NearFound, NearQuery, SearchClock, search_routes};
use std::alloc::{AllocError, Global};

/// Making so much of a table, in steps, is as much work as making a label.
const STEPS_A_LABEL: usize = 100;

/// So many labels are made at the most to look for routes past the horizon of a table.
const FARTHER_LABELS: usize = 200_000;

/// A coarse table has so many times fewer layers.
const TIMES_COARSER: usize = 4;

/// How fine a table is. A coarse one is made sooner, and its bounds are lower.
#[derive(Clone, Copy, Debug, PartialEq, Eq)]
pub(crate) enum Grain {
    Coarse,
    Fine,
}

/// What routes are searched by.
#[derive(Drop)]
pub(crate) struct Pricing<'a> {
    inst: &'a Instance,
    pub(crate) ground: &'a Ground,
    /// Who may come next after whom. No set is counted in it.
    pub(crate) follow: Follow,
    pub(crate) entries: Vec<EntryRange>,
    pub(crate) terms: NearTerms,
    /// The prices of the rows.
    pub(crate) prices: Vec<i64>,
    /// The table of these prices and near sets, if it is made.
    table: Option<WayTable>,
    /// How fine it is; `None` where it isn't made for these prices and near sets.
    made: Option<Grain>,
    layers: usize,
}

impl<'a> Pricing<'a> {
    /// A search by prices 0.
    pub(crate) fn new(
        alloc: Global,
        inst: &'a Instance,
        ground: &'a Ground,
        follow: Follow,
        entries: Vec<EntryRange>,
        layers: usize,
        weight: u32,
    ) -> Result<Pricing<'a>, AllocError> {
        let counted = entries.len().saturating_mul(2);
        let rows = ground.customers().saturating_add(counted);
        Ok(Pricing {
            inst,
            ground,
            terms: NearTerms::new(alloc, weight, &follow)?,
            follow,
            entries,
            prices: vec![in alloc; 0; rows]?,
            table: None,
            made: None,
            layers,
        })
    }

    /// How many customers there are.
    pub(crate) fn customers(&self) -> usize {
        self.ground.customers()
    }

    /// What an entry into a counted set earns by prices of rows.
    pub(crate) fn entry_price(&self, prices: &[i64], place: usize) -> i64 {
        let row = self.customers().saturating_add(place.saturating_mul(2));
        at(prices, row).saturating_add(at(prices, row.saturating_add(1)))
    }

    /// Takes prices of the rows, and makes the table by them, unless it is made. How much work that
    /// was, in labels.
    pub(crate) fn set_prices(
        &mut self,
        alloc: Global,
        prices: &[i64],
        grain: Grain,
    ) -> Result<usize, AllocError> {
        let is_same = self.prices.as_slice() == prices;
        if is_same && self.is_made_as(grain) {
            return Ok(0);
        }
        if !is_same {
            self.take_prices(alloc, prices)?;
        }
        let layers = self.layers_of(grain);
        self.table = None;
        self.table = WayTable::new(alloc, self.ground, &self.terms, layers, true)?;
        self.made = Some(grain);
        Ok(self.table_work())
    }

    /// Whether the table is made, and as fine as that.
    fn is_made_as(&self, grain: Grain) -> bool {
        self.made == Some(Grain::Fine) || self.made == Some(grain)
    }

    /// About so many layers the table has then.
    fn layers_of(&self, grain: Grain) -> usize {
        match grain {
            Grain::Coarse => self.layers / TIMES_COARSER,
            Grain::Fine => self.layers,
        }
    }

    /// Takes prices of the rows.
    pub(crate) fn take_prices(&mut self, alloc: Global, prices: &[i64]) -> Result<(), AllocError> {
        self.made = None;
        for (own, price) in self.prices.iter_mut().zip(prices) {
            *own = *price;
        }
        if !self.entries.is_empty() {
            self.renew(alloc)?;
        }
        self.tell_prices();
        Ok(())
    }

    /// Tells the terms what customers earn.
    fn tell_prices(&mut self) {
        for customer in 0..self.ground.customers() {
            self.terms.set_price(customer, at(&self.prices, customer));
        }
    }

    /// How much work it was to make the table, in labels.
    fn table_work(&self) -> usize {
        let places = self.ground.depot();
        let layers = self.table.as_ref().map_or(0, |table| table.layers());
        let steps = places.saturating_mul(places).saturating_mul(layers);
        steps / STEPS_A_LABEL
    }

    /// Makes the terms anew by what entries earn, with the near sets that there are.
    fn renew(&mut self, alloc: Global) -> Result<(), AllocError> {
        let follow = self.counted_follow(alloc)?;
        let mut terms = NearTerms::new(alloc, self.terms.weight(), &follow)?;
        for customer in 0..self.ground.customers() {
            terms.set_near(customer, self.terms.near(customer));
            terms.set_first_near(customer, self.terms.first_near(customer));
        }
        self.terms = terms;
        Ok(())
    }

    /// Who may come next after whom, with what entries earn.
    fn counted_follow(&self, alloc: Global) -> Result<Follow, AllocError> {
        let customers = self.ground.customers();
        let mut follow = Follow::new(alloc, customers)?;
        forbid_after(&mut follow, &self.follow, None);
        for customer in 0..customers {
            forbid_after(&mut follow, &self.follow, Some(customer));
        }
        for (place, entry) in self.entries.iter().enumerate() {
            follow.count(entry.set, self.entry_price(&self.prices, place))?;
        }
        Ok(follow)
    }

    /// Lets the table be made anew, since near sets are others.
    pub(crate) fn forget_table(&mut self) {
        self.made = None;
    }

    /// Searches for routes by the prices. Where an exact search finds none, and the table leaves
    /// out what is past its horizon, they are sought without it, as far as some work goes.
    pub(crate) fn search<C: SearchClock>(
        &self,
        alloc: Global,
        aim: &Aim,
        clock: &mut C,
    ) -> Result<NearFound, AllocError> {
        let mut found = self.search_by(alloc, self.table.as_ref(), aim, clock)?;
        if aim.comparison != Comparison::Exact || !found.routes.is_empty() || !self.leaves_out() {
            return Ok(found);
        }
        let farther = Aim {
            most_labels: aim.most_labels.min(FARTHER_LABELS),
            ..*aim
        };
        let past = self.search_by(alloc, None, &farther, clock)?;
        if !past.routes.is_empty() {
            return Ok(past);
        }
        found.labels = found.labels.saturating_add(past.labels);
        Ok(found)
    }

    /// Searches for routes by the prices and a table, where there is one.
    fn search_by<C: SearchClock>(
        &self,
        alloc: Global,
        table: Option<&WayTable>,
        aim: &Aim,
        clock: &mut C,
    ) -> Result<NearFound, AllocError> {
        let query = NearQuery::new(alloc, self.inst, self.ground, &self.terms, table)?;
        search_routes(alloc, &query, aim, clock)
    }

    /// Whether the table leaves out what is past its horizon.
    fn leaves_out(&self) -> bool {
        match &self.table {
            Some(table) => !table.is_whole(),
            None => false,
        }
    }
}

/// Forbids whoever may not come next after a customer, or after nobody.
fn forbid_after(follow: &mut Follow, other: &Follow, from: Option<usize>) {
    for to in 0..other.customers() {
        if !other.allows(from, Some(to)) {
            follow.forbid(from, Some(to));
        }
    }
    if from.is_some() && !other.allows(from, None) {
        follow.forbid(from, None);
    }
}
