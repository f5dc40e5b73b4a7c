//! Near sets to begin with. No clause rests on this.

use crate::follow::with;
use crate::ground::Ground;
use customer_sets::LargeSet;
use std::alloc::{AllocError, Global};

/// For each customer the set of himself and of so many others to whom driving takes least, by
/// number.
pub fn nearest_sets(
    alloc: Global,
    ground: &Ground,
    others: usize,
) -> Result<Vec<LargeSet>, AllocError> {
    let mut sets = Vec::with_capacity(alloc, ground.customers())?;
    for customer in 0..ground.customers() {
        sets.push(nearest_to(alloc, ground, customer, others)?)?;
    }
    Ok(sets)
}

/// A customer and so many others to whom driving takes least.
fn nearest_to(
    alloc: Global,
    ground: &Ground,
    customer: usize,
    others: usize,
) -> Result<LargeSet, AllocError> {
    let mut order = Vec::with_capacity(alloc, ground.customers())?;
    for (other, arc) in ground
        .arcs_from(customer)
        .iter()
        .take(ground.customers())
        .enumerate()
    {
        if let Some(arc) = arc {
            order.push((arc.time, other))?;
        }
    }
    order.sort()?;
    let mut set = with(LargeSet::empty(), customer);
    for (_, other) in order.iter().take(others) {
        set = with(set, *other);
    }
    Ok(set)
}
