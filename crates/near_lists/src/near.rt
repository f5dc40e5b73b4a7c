//! The labels of a near proof. No clause rests on this.

use crate::values::copy_of;
use customer_sets::{CustSet, LargeSet};
use instance_reader::Instance;
use near_proof::NearLabel;
use near_tree::{LastServed, LeafSection, SectionLabel};
use std::alloc::{AllocError, Global};

/// So many customers a near proof takes.
const MOST_CUSTOMERS: usize = 128;

/// The labels of a section as those of a near proof, where nothing is forbidden or counted and
/// nobody has earned less than nothing, for up to 128 customers; else `None`. The only `Err` is
/// want of memory.
pub fn near_labels(
    alloc: Global,
    inst: &Instance,
    section: &LeafSection,
) -> Result<Option<Vec<NearLabel>>, AllocError> {
    let has_entries = !section.entry_prices.as_slice().is_empty();
    if has_entries || inst.customers().len() > MOST_CUSTOMERS {
        return Ok(None);
    }
    let labels = section.labels.as_slice();
    let mut all = Vec::with_capacity(alloc, labels.len())?;
    for label in labels {
        match near_label(alloc, inst, label)? {
            Some(label) => all.push(label)?,
            None => return Ok(None),
        }
    }
    Ok(Some(all))
}

/// A label as one of a near proof; `None` where its last is told at a station, or it has earned
/// less than nothing.
fn near_label(
    alloc: Global,
    inst: &Instance,
    label: &SectionLabel,
) -> Result<Option<NearLabel>, AllocError> {
    let Ok(earned) = u128::try_from(label.earned) else {
        return Ok(None);
    };
    if tells_last(inst, label) {
        return Ok(None);
    }
    Ok(Some(NearLabel {
        node: label.node,
        memory: small_set(label.memory),
        count: 0,
        earned,
        value: copy_of(alloc, &label.value)?,
    }))
}

/// Whether a label tells whom it served last, beside at that customer's node and at the depot.
fn tells_last(inst: &Instance, label: &SectionLabel) -> bool {
    match label.last {
        LastServed::Nobody => label.node != 0,
        LastServed::Customer(customer) => inst.customers().get(customer) != Some(&label.node),
        LastServed::Anybody => false,
    }
}

/// The same set, of the first customers.
fn small_set(set: LargeSet) -> CustSet {
    let mut small = CustSet::empty();
    for customer in 0..MOST_CUSTOMERS {
        if set.has(customer) {
            small = small.with(customer);
        }
    }
    small
}
