//! On what a node may be split. No clause rests on this.

use crate::fork::Fork;
use crate::numbers::{HALF, ONE, fraction, whole, with};
use crate::site::{Site, range_of};
use customer_sets::LargeSet;
use near_completion::Ground;
use near_prices::{Tally, UsedRoute};
use std::alloc::{AllocError, Global};

/// So many pairs are tried.
const PAIRS: usize = 15;

/// So many sets are tried.
const SETS: usize = 40;

/// Pairs are tried whose amount is further from a whole number than this, in units of 2^-32.
const NEAR_WHOLE: i64 = ONE / 1000;

/// The number of routes is one of the candidates where it is further from a whole number.
const ROUTES_NEAR_WHOLE: i64 = ONE / 50;

/// Sets are tried whose entries are further from a whole number.
const SETS_NEAR_WHOLE: i64 = ONE / 10;

/// So many sets are counted on the way to a leaf at the most.
const MOST_COUNTED: usize = 64;

/// On what a node may be split whose optimum is made of these routes.
pub(crate) fn candidates(
    alloc: Global,
    customers: usize,
    site: &Site,
    used: &[UsedRoute],
    family: &[LargeSet],
) -> Result<Vec<Fork>, AllocError> {
    let mut forks = Vec::new(alloc);
    let pairs = pairs_of(alloc, customers, used)?;
    push_pairs(alloc, customers, &pairs, &mut forks)?;
    push_routes(site, customers, used, &mut forks)?;
    push_sets(alloc, site, used, family, &mut forks)?;
    if forks.is_empty() {
        if let Some(fork) = some_pair(customers, site, &pairs) {
            forks.push(fork)?;
        }
    }
    Ok(forks)
}

/// How much of the optimum has each pair of customers, by both.
fn pairs_of(alloc: Global, customers: usize, used: &[UsedRoute]) -> Result<Vec<i64>, AllocError> {
    let mut pairs = vec![in alloc; 0_i64; customers.saturating_mul(customers)]?;
    for route in used {
        let mut last: Option<usize> = None;
        for customer in &route.order {
            if let Some(before) = last {
                let place = before.saturating_mul(customers).saturating_add(*customer);
                add_at(&mut pairs, place, route.amount);
            }
            last = Some(*customer);
        }
    }
    Ok(pairs)
}

/// Adds an amount at a place, if there is that place.
fn add_at(amounts: &mut [i64], place: usize, amount: i64) {
    if let Some(own) = amounts.get_mut(place) {
        *own = own.saturating_add(amount);
    }
}

/// The pair at a place.
fn pair_at(customers: usize, place: usize) -> Fork {
    Fork::Pair {
        before: place.checked_div(customers).unwrap_or(0),
        after: place.checked_rem(customers).unwrap_or(0),
    }
}

/// Whether a pair has two customers.
fn has_two(fork: &Fork) -> bool {
    match fork {
        Fork::Pair { before, after } => before != after,
        Fork::Entries { .. } => false,
    }
}

/// Appends the pairs whose amounts are nearest to a half.
fn push_pairs(
    alloc: Global,
    customers: usize,
    pairs: &[i64],
    forks: &mut Vec<Fork>,
) -> Result<(), AllocError> {
    let mut order = Vec::new(alloc);
    for (place, amount) in pairs.iter().enumerate() {
        let is_split = *amount > NEAR_WHOLE && *amount < ONE - NEAR_WHOLE;
        if is_split && has_two(&pair_at(customers, place)) {
            order.push((amount.saturating_sub(HALF).saturating_abs(), place))?;
        }
    }
    order.sort()?;
    for (_, place) in order.iter().take(PAIRS) {
        forks.push(pair_at(customers, *place))?;
    }
    Ok(())
}

/// How often the optimum enters a set, in units of 2^-32.
fn entries_into(used: &[UsedRoute], set: LargeSet) -> i64 {
    let mut sum: i64 = 0;
    for route in used {
        let count = Tally::Entries(set).of(&route.order);
        sum = sum.saturating_add(count.saturating_mul(route.amount));
    }
    sum
}

/// The split of a set by its entries, where its range and the number of counted sets let it be.
fn fork_of(site: &Site, set: LargeSet, entries: i64) -> Option<Fork> {
    let range = range_of(&site.entries, set);
    let most = u32::try_from(whole(entries)).ok()?;
    let is_new = site.entries.iter().all(|entry| entry.set != set);
    let is_full = is_new && site.entries.len() >= MOST_COUNTED;
    if is_full || most < range.least || most >= range.most {
        return None;
    }
    Some(Fork::Entries { most, set })
}

/// Appends the number of routes.
fn push_routes(
    site: &Site,
    customers: usize,
    used: &[UsedRoute],
    forks: &mut Vec<Fork>,
) -> Result<(), AllocError> {
    let mut all = LargeSet::empty();
    for customer in 0..customers {
        all = with(all, customer);
    }
    let routes = entries_into(used, all);
    let part = fraction(routes);
    if part > ROUTES_NEAR_WHOLE && part < ONE - ROUTES_NEAR_WHOLE {
        if let Some(fork) = fork_of(site, all, routes) {
            forks.push(fork)?;
        }
    }
    Ok(())
}

/// Appends the sets whose entries are nearest to a half.
fn push_sets(
    alloc: Global,
    site: &Site,
    used: &[UsedRoute],
    family: &[LargeSet],
    forks: &mut Vec<Fork>,
) -> Result<(), AllocError> {
    let mut order = Vec::new(alloc);
    for (place, set) in family.iter().enumerate() {
        let entries = entries_into(used, *set);
        let part = fraction(entries);
        if part > SETS_NEAR_WHOLE && part < ONE - SETS_NEAR_WHOLE {
            let off = part.saturating_sub(HALF).saturating_abs();
            order.push((off, place, entries))?;
        }
    }
    order.sort()?;
    for (_, place, entries) in order.iter().take(SETS) {
        let set = family.get(*place).copied().unwrap_or(LargeSet::empty());
        if let Some(fork) = fork_of(site, set, *entries) {
            forks.push(fork)?;
        }
    }
    Ok(())
}

/// A pair of the optimum that isn't required yet, or else any pair that may be split.
fn some_pair(customers: usize, site: &Site, pairs: &[i64]) -> Option<Fork> {
    let mut any = None;
    for (place, amount) in pairs.iter().enumerate() {
        let fork = pair_at(customers, place);
        if has_two(&fork) && is_free(customers, site, &fork) {
            if *amount > NEAR_WHOLE {
                return Some(fork);
            }
            any = any.or(Some(fork));
        }
    }
    any
}

/// Whether a pair may be taken, and another one in its place.
fn is_free(customers: usize, site: &Site, fork: &Fork) -> bool {
    let Fork::Pair { before, after } = fork else {
        return false;
    };
    let (before, after) = (*before, *after);
    if !site.follow.allows(Some(before), Some(after)) {
        return false;
    }
    if site.follow.allows(Some(before), None) {
        return true;
    }
    (0..customers).any(|other| {
        other != after && other != before && site.follow.allows(Some(before), Some(other))
    })
}

/// The sets of each customer and of up to so many others who are nearest to him.
pub(crate) fn family(alloc: Global, ground: &Ground) -> Result<Vec<LargeSet>, AllocError> {
    let customers = ground.customers();
    let most = (customers / 2).min(12);
    let mut sets = Vec::new(alloc);
    for customer in 0..customers {
        let order = nearest(alloc, ground, customer)?;
        let mut set = with(LargeSet::empty(), customer);
        for (_, other) in order.iter().take(most) {
            set = with(set, *other);
            if !sets.contains(&set) {
                sets.push(set)?;
            }
        }
    }
    Ok(sets)
}

/// The others by the time of driving to a customer and back.
fn nearest(
    alloc: Global,
    ground: &Ground,
    customer: usize,
) -> Result<Vec<(u64, usize)>, AllocError> {
    let mut order = Vec::new(alloc);
    for other in 0..ground.customers() {
        if other != customer {
            let there = ground
                .arc(customer, other)
                .map_or(u64::MAX / 4, |arc| arc.time);
            let back = ground
                .arc(other, customer)
                .map_or(u64::MAX / 4, |arc| arc.time);
            order.push((there.saturating_add(back), other))?;
        }
    }
    order.sort()?;
    Ok(order)
}
