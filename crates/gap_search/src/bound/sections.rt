//! Sections of closed labels. No clause rests on this.

use crate::clock::{GapClock, Until};
use instance_reader::Instance;
use near_branch::BranchClock;
use near_completion::{Follow, Ground, NearTerms};
use near_lists::{ListPlan, ListTask, closed_section};
use near_prices::NearPrices;
use near_search::{NoClock, SearchClock};
use near_tree::LeafSection;
use std::alloc::{AllocError, Global};

/// So often prices are lowered, where no closed labels are found for them.
const MOST_TIMES: usize = 20;

/// So much of the time that is left for a proof a list may take until it is closed and stronger, in
/// per cent.
const LISTING: u64 = 50;

/// A section of closed labels by these prices; by lower ones where those have none, at the worst
/// those of the floor, with which a list is short. A short list is thought to take so many
/// milliseconds.
pub(crate) fn section_by<C: GapClock>(
    alloc: Global,
    inst: &Instance,
    ground: &Ground,
    found: &NearPrices,
    milliseconds: u64,
    clock: &mut C,
) -> Result<Option<LeafSection>, AllocError> {
    let mut terms = terms_of(alloc, ground, found)?;
    let plan = plan_for(milliseconds, clock);
    let mut until = Until::part_of_proof(clock, LISTING);
    for _ in 0..MOST_TIMES {
        if let Some(section) = closed(alloc, inst, ground, &terms, &plan, &mut until)? {
            return Ok(Some(section));
        }
        if until.is_up() {
            break;
        }
        lower(&mut terms, &found.floor);
    }
    let terms = terms_of_floor(alloc, ground, found)?;
    closed(
        alloc,
        inst,
        ground,
        &terms,
        &ListPlan::hasty(),
        &mut NoClock,
    )
}

/// A section of closed labels by these terms, if one is found.
pub(crate) fn closed<C: SearchClock>(
    alloc: Global,
    inst: &Instance,
    ground: &Ground,
    terms: &NearTerms,
    plan: &ListPlan,
    clock: &mut C,
) -> Result<Option<LeafSection>, AllocError> {
    let task = ListTask {
        inst,
        ground,
        terms,
        entry_prices: &[],
    };
    closed_section(alloc, &task, plan, clock)
}

/// The terms of these prices and near sets: everybody may come next.
fn terms_of(alloc: Global, ground: &Ground, found: &NearPrices) -> Result<NearTerms, AllocError> {
    let follow = Follow::new(alloc, ground.customers())?;
    let mut terms = NearTerms::new(alloc, 1, &follow)?;
    for (customer, price) in found.prices.iter().enumerate() {
        terms.set_price(customer, *price);
    }
    for (customer, set) in found.near.iter().enumerate() {
        terms.set_near(customer, *set);
    }
    Ok(terms)
}

/// The terms of the floor of prices: each customer remembers himself alone.
fn terms_of_floor(
    alloc: Global,
    ground: &Ground,
    found: &NearPrices,
) -> Result<NearTerms, AllocError> {
    let follow = Follow::new(alloc, ground.customers())?;
    let mut terms = NearTerms::new(alloc, 1, &follow)?;
    for (customer, price) in found.floor.iter().enumerate() {
        terms.set_price(customer, *price);
    }
    Ok(terms)
}

/// Lowers each price toward the floor by a quarter.
fn lower(terms: &mut NearTerms, floor: &[i64]) {
    for (customer, floor) in floor.iter().enumerate() {
        let price = terms.price(customer);
        let above = price.saturating_sub(*floor);
        terms.set_price(customer, price.saturating_sub(above / 4));
    }
}

/// A short list where there is time for it, and else one that is made quickly.
fn plan_for<C: BranchClock>(milliseconds: u64, clock: &mut C) -> ListPlan {
    if clock.is_up_in(milliseconds) {
        ListPlan::quick()
    } else {
        ListPlan::careful()
    }
}
