//! Worked instances: the bound of a node and its estimate.

ghost use Rattle.std.specs.Prelude.{◌≡◌, ◌≤◌, IfSome};

use crate::instances::{forbidding, instance, pairs_without};
use column_pool::{NodeBound, bound_node, estimate_node};
use customer_sets::Pairs;
use route_pool::ColumnPool;
use std::alloc::Global;
use worked_instances::{THREE_CUSTOMERS, TWO_CUSTOMERS};

/// What a bound tells: the weight and the price sum, and how many routes have shares.
fn told(bound: NodeBound) -> Option<(u64, i128, usize)> {
    let (section, routes) = match bound {
        NodeBound::Exact {
            section,
            shares,
            ..
        } => (section, shares.len()),
        NodeBound::Empty { section } => (section, 0),
        NodeBound::Wide { .. } => return None,
    };
    let mut sum = 0i128;
    for price in section.prices.as_slice() {
        sum = sum.saturating_add(*price);
    }
    Some((section.weight, sum, routes))
}

/// The bound without a pair, and the estimate where no customer follows another, by the routes that
/// the bound needs.
fn bounded(alloc: Global, text: &str, limit: u64) -> Option<((u64, i128, usize), Option<u128>)> {
    let inst = instance(alloc, text, limit)?;
    let mut pool = ColumnPool::new(alloc);
    let pairs = Pairs::new(inst.customers().len());
    let bound = bound_node(alloc, &inst, &pairs, &mut pool).ok()?;
    let apart = pairs_without(inst.customers().len(), &[(1, 2), (2, 1)])?;
    let estimate = estimate_node(alloc, &inst, &apart, &pool).ok()?;
    Some((told(bound)?, estimate))
}

#[test]
fn bounds_are_linear_optima_and_estimates_are_those_of_the_pool(rt: HostRuntime) {
    let alloc = rt.alloc();
    for &(text, limit, bound, estimate) in &[
        (THREE_CUSTOMERS, 11, (2, 33, 3), Some(19)),
        (TWO_CUSTOMERS, 13, (1, 13, 1), Some(16)),
        (TWO_CUSTOMERS, 7, (0, 2, 0), None),
    ] {
        assert_eq!(rt; bounded(alloc, text, limit), Some((bound, estimate)));
    }
}

/// The pairs of so many customers, of whom 1 goes to 2 and 2 to 3, where they are decided.
fn chained(customers: usize) -> Option<Pairs>
    requires { customers ≤ 128 }
    ensures { IfSome result (λ pairs. pairs.customers ≡ customers) }
{
    let mut pairs = Pairs::new(customers);
    if customers != 3 {
        return None;
    }
    pairs.require(1, 2);
    pairs.require(2, 3);
    let pairs = forbidding(pairs, &[(3, 1)])?;
    if pairs.decided() { Some(pairs) } else { None }
}

/// The bound of three customers in a chain.
fn bound_of_chain(alloc: Global, limit: u64) -> Option<(u64, i128, usize)> {
    let inst = instance(alloc, THREE_CUSTOMERS, limit)?;
    let pairs = chained(inst.customers().len())?;
    let mut pool = ColumnPool::new(alloc);
    told(bound_node(alloc, &inst, &pairs, &mut pool).ok()?)
}

#[test]
fn the_bound_of_a_chain_is_the_cost_of_its_plan(rt: HostRuntime) {
    let alloc = rt.alloc();
    assert_eq!(rt; bound_of_chain(alloc, 14), Some((1, 14, 1)));
    assert_eq!(rt; bound_of_chain(alloc, 13), Some((0, 1, 0)));
}
