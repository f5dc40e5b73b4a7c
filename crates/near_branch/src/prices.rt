//! Prices by which no near route earns that goes to a leaf. No clause rests on this.

use customer_sets::LargeSet;
use near_prices::EntryRange;
use std::alloc::{AllocError, Global};

/// Prices by which no near route earns, as far as the search knows.
#[derive(Drop)]
pub(crate) struct LeafPrices {
    /// The weight of a unit of scaled time.
    pub(crate) weight: u32,
    /// What serving each customer earns, by number.
    pub(crate) prices: Vec<i64>,
    /// What entering each counted set earns.
    pub(crate) entry_prices: Vec<i64>,
    /// The near sets, by customer.
    pub(crate) near: Vec<LargeSet>,
    /// Their sum, with what entries earn at the least.
    pub(crate) sum: i128,
}

/// What prices bound.
#[derive(Clone, Copy, Debug, PartialEq, Eq)]
pub(crate) enum Worth {
    /// A plan costs so much at the least.
    Cost(u128),
    /// There is no plan.
    NoPlan,
}

impl Worth {
    /// Whether no plan goes to a leaf that costs less.
    pub(crate) fn reaches(self, cost: Option<u128>) -> bool {
        match (self, cost) {
            (Worth::NoPlan, _) => true,
            (Worth::Cost(own), Some(cost)) => own >= cost,
            (Worth::Cost(_), None) => false,
        }
    }

    /// A number that is the less the less it is worth.
    pub(crate) fn rank(self) -> u128 {
        match self {
            Worth::NoPlan => u128::MAX,
            Worth::Cost(own) => own,
        }
    }
}

impl LeafPrices {
    /// What they bound.
    pub(crate) fn worth(&self) -> Worth {
        worth_of(self.sum, self.weight)
    }

    /// The same prices where ranges are others; a further set earns nothing.
    pub(crate) fn at(
        &self,
        alloc: Global,
        entries: &[EntryRange],
    ) -> Result<LeafPrices, AllocError> {
        let mut entry_prices = Vec::with_capacity(alloc, entries.len())?;
        for place in 0..entries.len() {
            entry_prices.push(self.entry_prices.get(place).copied().unwrap_or(0))?;
        }
        Ok(LeafPrices {
            weight: self.weight,
            prices: self.prices.clone()?,
            near: self.near.clone()?,
            sum: sum_of(&self.prices, &entry_prices, entries),
            entry_prices,
        })
    }
}

/// What a sum of prices by a weight bounds.
pub(crate) fn worth_of(sum: i128, weight: u32) -> Worth {
    if weight == 0 {
        return if sum > 0 {
            Worth::NoPlan
        } else {
            Worth::Cost(0)
        };
    }
    let weight = i128::from(weight);
    let over = sum.saturating_add(weight).saturating_sub(1);
    let part = over.checked_div_euclid(weight).unwrap_or(0);
    Worth::Cost(u128::try_from(part).unwrap_or(0))
}

/// The sum of prices, with what entries earn at the least.
pub(crate) fn sum_of(prices: &[i64], entry_prices: &[i64], entries: &[EntryRange]) -> i128 {
    let mut sum: i128 = 0;
    for price in prices {
        sum = sum.saturating_add(i128::from(*price));
    }
    for (price, entry) in entry_prices.iter().zip(entries) {
        let times = if *price > 0 { entry.least } else { entry.most };
        let earned = i128::from(*price).saturating_mul(i128::from(times));
        sum = sum.saturating_add(earned);
    }
    sum
}
