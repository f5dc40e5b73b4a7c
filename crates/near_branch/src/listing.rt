//! Closed lists of leaves. No clause rests on this.

use crate::growth::Growth;
use crate::lowering::{SectionPrices, lowered};
use crate::node::{Listing, turns_to};
use crate::prices::{LeafPrices, Worth};
use crate::site::{Site, site_of};
use near_completion::NearTerms;
use near_lists::{ListPlan, ListTask, closed_section};
use near_search::NoClock;
use std::alloc::{AllocError, Global};

/// So often lower prices are tried, where no list is found.
const TRIES: u32 = 4;

impl Growth<'_> {
    /// Makes the list of the node at a place, so that its prices bound so much, or less where no
    /// list is found for that. Whether one is found.
    pub(crate) fn list(
        &mut self,
        alloc: Global,
        place: usize,
        target: u128,
        plan: &ListPlan,
    ) -> Result<bool, AllocError> {
        let mut aim = target;
        for _ in 0..TRIES {
            if let Some(listing) = self.listing(alloc, place, aim, plan)? {
                if let Some(node) = self.nodes.get_mut(place) {
                    node.listing = Some(listing);
                }
                return Ok(true);
            }
            if self.shows_none(place) {
                break;
            }
            aim = aim.saturating_sub(aim / 8);
        }
        Ok(false)
    }

    /// Whether the prices of the node at a place show that no plan goes there.
    fn shows_none(&self, place: usize) -> bool {
        match self.nodes.get(place) {
            Some(node) => node.prices.worth() == Worth::NoPlan,
            None => true,
        }
    }

    /// The list of the node at a place, by prices that bound so much.
    fn listing(
        &self,
        alloc: Global,
        place: usize,
        aim: u128,
        plan: &ListPlan,
    ) -> Result<Option<Listing>, AllocError> {
        let Some(node) = self.nodes.get(place) else {
            return Ok(None);
        };
        let own = &node.prices;
        let aim = match own.worth() {
            Worth::Cost(cost) => aim.min(cost),
            Worth::NoPlan => aim,
        };
        let turns = turns_to(alloc, &self.nodes, place)?;
        let site = site_of(alloc, self.ground.customers(), &turns)?;
        let prices = lowered(alloc, own, &site.entries, aim)?;
        let terms = terms_of(alloc, own, site, &prices)?;
        let task = ListTask {
            inst: self.inst,
            ground: self.ground,
            terms: &terms,
            entry_prices: &prices.entry_prices,
        };
        let section = closed_section(alloc, &task, plan, &mut NoClock)?;
        Ok(section.map(|section| Listing {
            section,
            worth: prices.worth,
        }))
    }
}

/// The terms of prices at a leaf.
fn terms_of(
    alloc: Global,
    own: &LeafPrices,
    site: Site,
    prices: &SectionPrices,
) -> Result<NearTerms, AllocError> {
    let Site {
        mut follow,
        entries,
    } = site;
    for (entry, price) in entries.iter().zip(&prices.entry_prices) {
        follow.count(entry.set, *price)?;
    }
    let mut terms = NearTerms::new(alloc, prices.weight, &follow)?;
    for (customer, price) in prices.prices.iter().enumerate() {
        terms.set_price(customer, *price);
    }
    for (customer, set) in own.near.iter().enumerate() {
        terms.set_near(customer, *set);
        terms.set_first_near(customer, *set);
    }
    Ok(terms)
}
