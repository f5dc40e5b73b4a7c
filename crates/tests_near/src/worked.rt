//! Worked instances: the bound and the prices.

use crate::told::{Told, instance, judged, judged_from};
use std::process::Abort;
use worked_instances::{ONE_STATION, THREE_CUSTOMERS, TWO_CUSTOMERS};

/// A limit that no route of the instances reaches.
const LONG: u64 = 1_000;

/// The bound is the sum of these prices, or the test fails.
fn assert_prices(rt: &impl Abort, told: Option<Told>, wanted: &[u64]) {
    let (bound, prices) = told.expect(rt, "a proof");
    let mut sum: u128 = 0;
    for price in wanted {
        sum = sum.saturating_add(u128::from(*price));
    }
    assert!(rt; bound == Some(sum) && prices.as_slice() == wanted);
}

/// Where nobody is remembered customer 1 may be served before and behind another one: the route 0, 1,
/// 2, 1, 0 takes 14.
#[test]
fn prices_are_the_greatest_that_near_routes_allow(rt: HostRuntime) {
    let alloc = rt.alloc();
    let cases: &[(&str, usize, &[u64])] = &[
        (THREE_CUSTOMERS, 2, &[8, 3, 3]),
        (THREE_CUSTOMERS, 0, &[7, 0, 0]),
        (ONE_STATION, 0, &[43]),
    ];
    for &(text, near, prices) in cases {
        let inst = instance(alloc, text, LONG).expect(&rt, "an instance");
        assert_prices(&rt, judged(alloc, &inst, near), prices);
    }
}

/// Prices below an end rise, and one that is too high falls.
#[test]
fn prices_begin_where_they_are_told(rt: HostRuntime) {
    let alloc = rt.alloc();
    let inst = instance(alloc, THREE_CUSTOMERS, LONG).expect(&rt, "an instance");
    for &(start, end) in &[([4, 5, 0], [6, 5, 3]), ([0, 0, 9], [3, 3, 8])] {
        let told = judged_from(alloc, &inst, 2, &start);
        assert_prices(&rt, told, &end);
    }
}

#[test]
fn there_is_no_bound_without_a_near_route(rt: HostRuntime) {
    let inst = instance(rt.alloc(), TWO_CUSTOMERS, 7).expect(&rt, "an instance");
    let told = judged(rt.alloc(), &inst, 1);
    assert!(rt; told.is_some_and(|told| told.0.is_none()));
}
