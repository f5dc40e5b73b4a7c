//! What prices of a linear optimum are found on worked instances.

use customer_sets::LargeSet;
use instance_reader::{Instance, read_instance};
use near_completion::{Follow, Ground};
use near_prices::{
    EntryRange, NearPrices, PriceQuestion, PriceSearch, PricesProgress, PricesWatcher, find_prices,
};
use near_search::{NoClock, SearchClock};
use std::alloc::{AllocError, Global};
use worked_instances::{DEPOT_ALONE, ONE_STATION, THREE_CUSTOMERS};

/// Whoever isn't told how far rounds are.
#[derive(Drop)]
struct Unwatched {}

impl PricesWatcher for Unwatched {
    fn watch_prices(&mut self, _progress: PricesProgress) {}
}

/// A clock whose time is up.
#[derive(Drop)]
struct NoTime {}

impl SearchClock for NoTime {
    fn is_up(&mut self) -> bool {
        true
    }
}

/// A question on an instance of which no route is known; entries into the set of the first customer
/// are counted.
fn question(alloc: Global, ground: &Ground) -> Result<PriceQuestion, AllocError> {
    let mut entries = Vec::new(alloc);
    let set = LargeSet::empty().with(0);
    entries.push(EntryRange {
        set,
        least: 0,
        most: 9,
    })?;
    Ok(PriceQuestion {
        follow: Follow::new(alloc, ground.customers())?,
        entries,
        serves_once: false,
        near: Vec::new(alloc),
        plan: Vec::new(alloc),
        seen: Vec::new(alloc),
        layers: 20,
        most_growths: 9,
        weight: 1,
        dearest: None,
        is_exact: false,
    })
}

/// What is found on an instance, and how many routes a dive takes then.
fn found_on(alloc: Global, inst: &Instance) -> Result<(NearPrices, usize), AllocError> {
    let ground = Ground::new(alloc, inst)?;
    let mut search = PriceSearch::new(alloc, inst, &ground, question(alloc, &ground)?)?;
    let _ = search.estimate(alloc, 1, &mut NoClock)?;
    let end = search.run(alloc, &mut NoClock, &mut Unwatched {})?;
    let found = search.finish(alloc, end, &mut NoClock)?;
    let plan = search.dive(alloc, 0, &mut NoClock)?;
    Ok((found, plan.len()))
}

/// The bound of the prices of an instance, and whether each customer has a tight route.
fn bound_of(alloc: Global, text: &str) -> Option<(i128, bool)> {
    let inst = read_instance(alloc, text.as_bytes()).ok()?;
    let (found, taken) = found_on(alloc, &inst).ok()?;
    if !found.is_closed || taken == 0 && !found.prices.is_empty() {
        return None;
    }
    let is_tight = found.tight.iter().all(|place| place.is_some());
    Some((found.bound, is_tight))
}

/// Whether prices are found on an instance where there is no time.
fn has_prices_at_once(alloc: Global, text: &str) -> Option<bool> {
    let inst = read_instance(alloc, text.as_bytes()).ok()?;
    let ground = Ground::new(alloc, &inst).ok()?;
    let asked = question(alloc, &ground).ok()?;
    let found = find_prices(
        alloc,
        &inst,
        &ground,
        asked,
        &mut NoTime {},
        &mut Unwatched {},
    )
    .ok()?;
    Some(found.is_closed && found.prices.len() == inst.customers().len())
}

#[test]
fn prices_of_worked_instances_are_tight(rt: HostRuntime) {
    for &(text, bound) in &[(ONE_STATION, 43), (THREE_CUSTOMERS, 14), (DEPOT_ALONE, 0)] {
        assert_eq!(rt; bound_of(rt.alloc(), text), Some((bound, true)));
    }
}

#[test]
fn where_there_is_no_time_there_are_prices_all_the_same(rt: HostRuntime) {
    assert_eq!(rt; has_prices_at_once(rt.alloc(), THREE_CUSTOMERS), Some(true));
}
