//! Label values as plain rows of times.

use crate::curves::scaled_curve;
use dominance::{LabelValue, Row};
use std::process::Abort;

/// The row has these times, or the test fails.
fn assert_times(rt: &impl Abort, row: &Row, times: &[u64]) {
    assert_eq!(rt; row.times(), times);
}

#[test]
fn a_row_charges_along_a_curve_and_steps_along_an_arc(rt: HostRuntime) {
    const MOST: u64 = 1_000_000_000_000_000_000;
    let curve = scaled_curve(&rt, rt.alloc(), 10);
    let point = Row::from_times(rt.alloc(), 7, &[16]).expect(&rt, "memory");
    let charged = point.charge(&curve, MOST).expect(&rt, "memory");
    for row in &charged {
        assert_times(&rt, row, &[16, 17, 23, 29]);
        let left = row.shift(2, 6, 30).expect(&rt, "memory");
        let left = left.expect(&rt, "a level is left");
        assert_times(&rt, &left, &[22, 23, 29]);
    }
    assert!(rt; charged.len() == 1);
}
