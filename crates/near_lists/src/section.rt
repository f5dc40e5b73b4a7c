//! A section of a tree over near routes. No clause rests on this.

use crate::closing::close;
use crate::keeping::keep;
use crate::lasts::lasts;
use crate::lister::Lister;
use crate::plan::ListPlan;
use crate::strengthening::strengthen;
use crate::task::ListTask;
use crate::values::copy_of;
use customer_sets::LargeSet;
use ev_list::Listed;
use near_completion::{NearTerms, WayTable};
use near_search::{NearLabel, NearQuery, SearchClock};
use near_tree::{LastServed, LeafSection, SectionLabel};
use std::alloc::{AllocError, Global};

/// A section whose labels are closed at a leaf where just those may come next whom the terms let:
/// each step from one of them leads to where one covers it, and no way home earns. `None` where a
/// route earns, numbers don't fit, labels are too many or the time is up before they are closed; a
/// list that is closed is given all the same. The only `Err` is want of memory.
///
/// Prices and what is earned are in scaled time times the weight. A label for all vehicles of
/// a layer from which no way home earns, and stronger labels, make such lists short (completion
/// bounds as in Baldacci, Mingozzi, Roberti 2011).
pub fn closed_section<C: SearchClock>(
    alloc: Global,
    task: &ListTask<'_>,
    plan: &ListPlan,
    clock: &mut C,
) -> Result<Option<LeafSection>, AllocError> {
    if !task.fits() || clock.is_up() {
        return Ok(None);
    }
    let table = WayTable::new(alloc, task.ground, task.terms, plan.layers, false)?;
    let query = NearQuery::new(alloc, task.inst, task.ground, task.terms, table.as_ref())?;
    let mut lister = Lister::new(alloc, &query, plan, task.never_loses())?;
    if !close(alloc, &mut lister, clock)? {
        return Ok(None);
    }
    if plan.strengthens {
        strengthen(alloc, &mut lister, clock)?;
    }
    match keep(alloc, &lister)? {
        Some(kept) => Ok(Some(section_of(alloc, task, &lister, &kept)?)),
        None => Ok(None),
    }
}

/// The section of labels with these numbers.
fn section_of(
    alloc: Global,
    task: &ListTask<'_>,
    lister: &Lister<'_, '_>,
    numbers: &[usize],
) -> Result<LeafSection, AllocError> {
    let labels = listed(alloc, task, lister.labels.all(), numbers)?;
    Ok(LeafSection {
        weight: u64::from(task.terms.weight()),
        prices: Listed::from_vec(widened(alloc, task.terms.prices())?),
        sets: Listed::from_vec(near_sets(alloc, task.terms)?),
        entry_prices: Listed::from_vec(widened(alloc, task.entry_prices)?),
        labels: Listed::from_vec(labels),
    })
}

/// Prices in a wider form.
fn widened(alloc: Global, prices: &[i64]) -> Result<Vec<i128>, AllocError> {
    let mut all = Vec::with_capacity(alloc, prices.len())?;
    for price in prices {
        all.push(i128::from(*price))?;
    }
    Ok(all)
}

/// The near sets, by customer.
fn near_sets(alloc: Global, terms: &NearTerms) -> Result<Vec<LargeSet>, AllocError> {
    let mut sets = Vec::with_capacity(alloc, terms.customers())?;
    for customer in 0..terms.customers() {
        sets.push(terms.near(customer))?;
    }
    Ok(sets)
}

/// The labels with these numbers.
fn listed(
    alloc: Global,
    task: &ListTask<'_>,
    labels: &[NearLabel],
    numbers: &[usize],
) -> Result<Vec<SectionLabel>, AllocError> {
    let lasts = lasts(alloc, task.terms)?;
    let mut all = Vec::with_capacity(alloc, numbers.len())?;
    for number in numbers {
        if let Some(label) = labels.get(*number) {
            all.push(section_label(alloc, task, &lasts, label)?)?;
        }
    }
    Ok(all)
}

/// A label of a section.
fn section_label(
    alloc: Global,
    task: &ListTask<'_>,
    lasts: &[LastServed],
    label: &NearLabel,
) -> Result<SectionLabel, AllocError> {
    let state = &label.state;
    let last = if task.ground.is_customer(state.place) {
        LastServed::Customer(state.place)
    } else if state.place == task.ground.depot() {
        LastServed::Nobody
    } else {
        last_of(lasts, state.class)
    };
    Ok(SectionLabel {
        node: task.ground.node(state.place),
        last,
        memory: state.memory,
        earned: i128::from(state.earned),
        value: copy_of(alloc, &state.value)?,
    })
}

/// Somebody after whom a vehicle of a class comes.
fn last_of(lasts: &[LastServed], class: usize) -> LastServed {
    match lasts.get(class) {
        Some(last) => *last,
        None => LastServed::Anybody,
    }
}
