//! Prices that are lowered until they bound no more than is asked: the lists get shorter. No clause
//! rests on this.

use crate::prices::{LeafPrices, Worth, sum_of, worth_of};
use near_prices::EntryRange;
use std::alloc::{AllocError, Global};

/// Prices of a section.
#[derive(Drop)]
pub(crate) struct SectionPrices {
    /// The weight of a unit of scaled time.
    pub(crate) weight: u32,
    /// What serving each customer earns, by number.
    pub(crate) prices: Vec<i64>,
    /// What entering each counted set earns.
    pub(crate) entry_prices: Vec<i64>,
    /// What they bound.
    pub(crate) worth: Worth,
}

/// The prices of a leaf, lowered so that they bound so much just so, if they bound as much. Times
/// have the weight 1 where that is enough.
pub(crate) fn lowered(
    alloc: Global,
    own: &LeafPrices,
    entries: &[EntryRange],
    target: u128,
) -> Result<SectionPrices, AllocError> {
    let coarse = divided(alloc, &own.prices, own.weight)?;
    let coarse_entries = divided(alloc, &own.entry_prices, own.weight)?;
    let sum = sum_of(&coarse, &coarse_entries, entries);
    let target = i128::try_from(target).unwrap_or(i128::MAX);
    let (weight, mut prices, entry_prices, over) = if own.weight > 0 && sum >= target {
        (1, coarse, coarse_entries, sum.saturating_sub(target))
    } else {
        let below = target
            .saturating_sub(1)
            .saturating_mul(i128::from(own.weight));
        let over = own.sum.saturating_sub(below).saturating_sub(1);
        (
            own.weight,
            own.prices.clone()?,
            own.entry_prices.clone()?,
            over,
        )
    };
    if weight > 0 {
        lower(&mut prices, over);
    }
    let worth = worth_of(sum_of(&prices, &entry_prices, entries), weight);
    Ok(SectionPrices {
        weight,
        prices,
        entry_prices,
        worth,
    })
}

/// Numbers over a weight, rounded down; as they are where it is 0.
fn divided(alloc: Global, numbers: &[i64], weight: u32) -> Result<Vec<i64>, AllocError> {
    let mut parts = Vec::with_capacity(alloc, numbers.len())?;
    for number in numbers {
        parts.push(
            number
                .checked_div_euclid(i64::from(weight))
                .unwrap_or(*number),
        )?;
    }
    Ok(parts)
}

/// Lowers the prices above 0 by so much in all, in proportion.
fn lower(prices: &mut [i64], over: i128) {
    let mut all: i128 = 0;
    for price in prices.iter() {
        all = all.saturating_add(i128::from((*price).max(0)));
    }
    let mut left = over.min(all).max(0);
    let whole = left;
    for price in prices.iter_mut() {
        let part = whole.saturating_mul(i128::from((*price).max(0)));
        let part = part.checked_div(all).unwrap_or(0).min(left);
        left = left.saturating_sub(part);
        *price = less(*price, part);
    }
    for price in prices.iter_mut() {
        let part = left.min(i128::from((*price).max(0)));
        left = left.saturating_sub(part);
        *price = less(*price, part);
    }
}

/// A price less a part of it.
fn less(price: i64, part: i128) -> i64 {
    price.saturating_sub(i64::try_from(part).unwrap_or(0))
}
