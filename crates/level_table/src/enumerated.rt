//! The least cost of a fleet plan by a plain enumeration: of all orders of all sets of customers,
//! each a route that the table of whole levels solves, and of all partitions into such sets.

use crate::solve_levels;
use instance_reader::Instance;
use route_plan::{read_route, walk};
use std::alloc::Global;

/// The least cost, scaled, or `None` inside where there is no plan. The customers are the nodes
/// from 1 on, so many. Else `None` is want of memory.
pub fn least_cost(alloc: Global, inst: &Instance, customers: usize) -> Option<Option<u128>> {
    let times = least_times(alloc, inst, customers)?;
    Some(least_partition(times.as_slice(), customers))
}

/// The least cost of a partition of the customers into sets with these times, `None` where a time
/// is none.
pub fn least_partition(times: &[Option<u128>], customers: usize) -> Option<u128> {
    let mut least = None;
    for code in 0..power(customers, customers) {
        least = lesser(least, partition_cost(times, customers, code));
    }
    least
}

/// The least scaled time of a route by the set of its customers, of which the node `c` from 1 on is
/// the binary digit `c - 1`; `None` inside where no order of a set has a plan.
pub fn least_times(alloc: Global, inst: &Instance, customers: usize) -> Option<Vec<Option<u128>>> {
    let mut times = Vec::new(alloc);
    for _ in 0..power(2, customers) {
        times.push(None).ok()?;
    }
    for code in 0..power(customers.saturating_add(1), customers) {
        try_order(alloc, inst, customers, code, &mut times)?;
    }
    Some(times)
}

/// Takes the time of the route in this order, where the number spells one.
fn try_order(
    alloc: Global,
    inst: &Instance,
    customers: usize,
    code: usize,
    times: &mut Vec<Option<u128>>,
) -> Option<()> {
    let Some((word, set)) = order_of(alloc, customers, code)? else {
        return Some(());
    };
    let time = route_time(alloc, inst, word.as_str())?;
    if let Some(before) = times.get_mut(set) {
        *before = lesser(*before, time);
    }
    Some(())
}

/// The route that the digits spell, as a word, and the set of its customers: the nodes of different
/// customers, behind which there is nothing but digits 0.
fn order_of(alloc: Global, customers: usize, code: usize) -> Option<Option<(String, usize)>> {
    let mut word = format!(in alloc; "0").ok()?;
    let mut rest = code;
    let mut set = 0;
    for _ in 0..customers {
        let node = rest % customers.saturating_add(1);
        rest /= customers.saturating_add(1);
        if node == 0 && rest == 0 {
            break;
        }
        let bit = power(2, node) / 2;
        if node == 0 || set & bit > 0 {
            return Some(None);
        }
        set |= bit;
        let step = format!(in alloc; ",{node}").ok()?;
        word.push_str(step.as_str()).ok()?;
    }
    word.push_str(",0").ok()?;
    Some(Some((word, set)))
}

/// The least time of the route, scaled.
fn route_time(alloc: Global, inst: &Instance, word: &str) -> Option<Option<u128>> {
    let Ok(route) = read_route(alloc, word, inst) else {
        return Some(None);
    };
    let Some(plan) = solve_levels(alloc, inst, route.as_slice(), inst.max_q()).ok()? else {
        return Some(None);
    };
    match walk(inst, inst.max_q(), plan.stops.as_slice()) {
        Ok(walk) => Some(Some(u128::from(walk.time))),
        Err(_) => None,
    }
}

/// The cost of the partition whose blocks are the digits, by customer.
fn partition_cost(times: &[Option<u128>], customers: usize, code: usize) -> Option<u128> {
    let mut cost = 0u128;
    for block in 0..customers {
        let set = block_of(customers, code, block);
        if set > 0 {
            let time = times.get(set)?;
            cost = cost.saturating_add((*time)?);
        }
    }
    Some(cost)
}

/// The set of the customers whose digit is the block's.
fn block_of(customers: usize, code: usize, block: usize) -> usize {
    let mut rest = code;
    let mut set = 0;
    for customer in 0..customers {
        if rest % customers == block {
            set |= power(2, customer);
        }
        rest /= customers;
    }
    set
}

/// The lesser of two costs; `None` is above every number.
pub fn lesser(first: Option<u128>, second: Option<u128>) -> Option<u128> {
    match (first, second) {
        (Some(first), Some(second)) => Some(first.min(second)),
        (Some(_), None) => first,
        (None, _) => second,
    }
}

/// The base to the exponent.
fn power(base: usize, exponent: usize) -> usize {
    let mut power = 1usize;
    for _ in 0..exponent {
        power = power.saturating_mul(base);
    }
    power
}
