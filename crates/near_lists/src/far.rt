//! Whom a label may forget first. No clause rests on this.

use near_completion::Ground;
use near_search::NearState;
use std::alloc::{AllocError, Global};

/// How many numbers a set takes.
const MOST: usize = 448;

/// The customers that a vehicle remembers besides the one at its place, those furthest away first.
pub(crate) fn far_members(
    alloc: Global,
    ground: &Ground,
    state: &NearState,
) -> Result<Vec<usize>, AllocError> {
    let mut order = Vec::new(alloc);
    for customer in 0..ground.customers().min(MOST) {
        if customer != state.place && state.memory.has(customer) {
            order.push((nearness(ground, state.place, customer), customer))?;
        }
    }
    order.sort()?;
    let mut members = Vec::with_capacity(alloc, order.len())?;
    for (_, customer) in &order {
        members.push(*customer)?;
    }
    Ok(members)
}

/// The less the more time driving takes.
fn nearness(ground: &Ground, from: usize, to: usize) -> u64 {
    match ground.arc(from, to) {
        Some(arc) => u64::MAX - arc.time,
        None => 0,
    }
}
