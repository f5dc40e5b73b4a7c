//! For each customer the others, the nearest first.

use crate::ground::Ground;
use std::alloc::{AllocError, Global};

/// For each customer, by number, all customers, the nearest first: himself before all others.
pub(crate) fn nearest(alloc: Global, ground: &Ground) -> Result<Vec<Vec<usize>>, AllocError> {
    let mut all = Vec::with_capacity(alloc, ground.customers)?;
    for customer in 0..ground.customers {
        all.push(nearest_to(alloc, ground, customer)?)?;
    }
    Ok(all)
}

/// For each two customers, by both numbers, whether the second is among so many of those nearest to
/// the first.
pub(crate) fn closest(
    alloc: Global,
    near: &[Vec<usize>],
    most: usize,
) -> Result<Vec<bool>, AllocError> {
    let mut close = vec![in alloc; false; near.len().saturating_mul(near.len())]?;
    for (own, row) in near.iter().enumerate() {
        mark_close(&mut close, own.wrapping_mul(near.len()), row, most);
    }
    Ok(close)
}

/// Marks so many of those who stand first in a row, from a place on.
fn mark_close(close: &mut [bool], from: usize, row: &[usize], most: usize) {
    for place in 0..most.min(row.len()) {
        if let Some(mark) = close.get_mut(from.wrapping_add(row[place])) {
            *mark = true;
        }
    }
}

/// All customers, the nearest to one first, by the time there and back.
fn nearest_to(alloc: Global, ground: &Ground, own: usize) -> Result<Vec<usize>, AllocError> {
    let mut keys = Vec::with_capacity(alloc, ground.customers)?;
    for customer in 0..ground.customers {
        keys.push((there_and_back(ground, own, customer), customer))?;
    }
    keys.sort()?;
    let mut nearest = Vec::with_capacity(alloc, ground.customers)?;
    nearest.push(own)?;
    for (_, customer) in &keys {
        if *customer != own {
            nearest.push(*customer)?;
        }
    }
    Ok(nearest)
}

/// The time from a place to another and back.
pub(crate) fn there_and_back(ground: &Ground, from: usize, to: usize) -> u64 {
    let (there, back) = (ground.arc(from, to), ground.arc(to, from));
    there.time.wrapping_add(back.time)
}
