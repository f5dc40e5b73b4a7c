//! Label values by few points.

use crate::curves::scaled_curve;
use dominance::LabelValue;
use piece_fn::PieceFn;
use std::process::Abort;

/// The value has these points, or the test fails.
fn assert_points(rt: &impl Abort, value: &PieceFn, points: &[(u64, u64)]) {
    assert_eq!(rt; value.points(), points);
}

#[test]
fn a_point_is_charged_along_a_curve(rt: HostRuntime) {
    const MOST: u64 = 1_000_000_000_000_000_000;
    let curve = scaled_curve(&rt, rt.alloc(), 10);
    let point = PieceFn::point(rt.alloc(), 7, 16);
    let charged = point.charge(&curve, MOST).expect(&rt, "memory");
    assert!(rt; charged.len() == 2);
    assert_points(&rt, &charged[1], &[(7, 16), (8, 17), (10, 29)]);
    let cut = charged[1].cut(9).expect(&rt, "memory");
    let cut = cut.expect(&rt, "a level is left");
    assert_points(&rt, &cut, &[(9, 23), (10, 29)]);
}
