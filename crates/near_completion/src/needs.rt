//! With which levels a vehicle can go on. No clause rests on this.

use crate::ground::Arc;
use std::alloc::{AllocError, Global};

/// What a vehicle has to have on arriving.
#[derive(Clone, Copy)]
struct Ends {
    customers: usize,
    depot: usize,
    reserve: u64,
    home_level: u64,
}

/// The levels with which a vehicle can go on from each place: to a station or home, over customers.
pub(crate) fn all_needs(
    alloc: Global,
    arcs: &[Vec<Option<Arc>>],
    customers: usize,
    reserve: u64,
    home_level: u64,
) -> Result<Vec<u64>, AllocError> {
    let ends = Ends {
        customers,
        depot: arcs.len().max(1) - 1,
        reserve,
        home_level,
    };
    let mut needs = vec![in alloc; u64::MAX; arcs.len()]?;
    for _ in 0..arcs.len() {
        if !lower_all(&mut needs, arcs, ends) {
            break;
        }
    }
    Ok(needs)
}

/// Lowers the levels of all places by one arc more. Whether one falls.
fn lower_all(needs: &mut [u64], arcs: &[Vec<Option<Arc>>], ends: Ends) -> bool {
    let mut is_lower = false;
    for (place, row) in arcs.iter().enumerate() {
        let least = least_on(needs, row, ends);
        if let Some(need) = needs.get_mut(place) {
            if least < *need {
                *need = least;
                is_lower = true;
            }
        }
    }
    is_lower
}

/// The least level with which a vehicle can go on by one of these arcs.
fn least_on(needs: &[u64], row: &[Option<Arc>], ends: Ends) -> u64 {
    let mut least = u64::MAX;
    for (to, arc) in row.iter().enumerate() {
        if let Some(arc) = arc {
            if let Some(level) = arc.energy.checked_add(level_at(needs, to, ends)) {
                least = least.min(level);
            }
        }
    }
    least
}

/// The level that a vehicle has to have on arriving at a place.
fn level_at(needs: &[u64], to: usize, ends: Ends) -> u64 {
    if to == ends.depot {
        ends.home_level
    } else if to < ends.customers {
        let need = needs.get(to).copied().unwrap_or(u64::MAX);
        need.max(ends.reserve)
    } else {
        ends.reserve
    }
}
