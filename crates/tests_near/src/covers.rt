//! Prices and amounts of the master problem that covers, on problems whose optima are known.

use cover_prices::{Cover, Row, Sense, Service};
use std::alloc::{AllocError, Global};
use std::process::Abort;

/// One, as amounts are told.
const ONE: i64 = 1 << 32;

/// A third of it, and two.
const THIRDS: (i64, i64) = (1_431_655_765, 2_863_311_531);

/// What it costs to cover a customer without a column.
const DEAREST: u64 = 1_000_000;

/// The service of a customer, so many times.
const fn service(customer: usize, count: i64) -> Service {
    Service { customer, count }
}

/// A problem of so many customers: each pair of the first three costs as much, the fourth is served
/// twice by a column of his own, and no other has a column.
fn pairs(alloc: Global, customers: usize) -> Result<Cover, AllocError> {
    let mut cover = Cover::new(alloc, customers, DEAREST)?;
    for (one, other) in [(0, 1), (1, 2), (0, 2)] {
        cover.add_column(alloc, &[service(one, 1), service(other, 1)], 100_000)?;
    }
    cover.add_column(alloc, &[service(3, 2)], 80_000)?;
    Ok(cover)
}

/// The numbers are these, but for some units, or the test fails.
fn assert_near(rt: &impl Abort, numbers: &[i64], others: &[i64], units: i64) {
    assert!(rt; numbers.len() == others.len());
    for (number, other) in numbers.iter().zip(others.iter()) {
        assert!(rt;
            number.saturating_sub(*other).saturating_abs() <= units,
            "{number}, not {other}"
        );
    }
}

/// The sum of numbers.
fn sum_of(numbers: &[i64]) -> i64 {
    let mut sum: i64 = 0;
    for number in numbers {
        sum = sum.saturating_add(*number);
    }
    sum
}

#[test]
fn pairs_are_taken_by_halves_and_who_has_no_column_is_dear(rt: HostRuntime) {
    let mut cover = pairs(rt.alloc(), 5).expect(&rt, "memory");
    cover.refine();
    cover.solve(rt.alloc()).expect(&rt, "memory");
    assert_near(
        &rt,
        cover.prices(),
        &[50_000, 50_000, 50_000, 40_000, 1_000_000],
        20,
    );
    assert_near(&rt, cover.amounts(), &[ONE / 2; 4], 1 << 10);
    assert_near(&rt, &[cover.lacking()], &[ONE], 1 << 10);
}

#[test]
fn the_volume_method_comes_near(rt: HostRuntime) {
    let mut cover = pairs(rt.alloc(), 4).expect(&rt, "memory");
    assert!(rt; cover.is_rough());
    cover.solve(rt.alloc()).expect(&rt, "memory");
    assert_near(&rt, &[sum_of(cover.prices())], &[190_000], 4_000);
}

#[test]
fn a_banned_column_is_taken_no_more(rt: HostRuntime) {
    let alloc = rt.alloc();
    let mut cover = pairs(alloc, 4).expect(&rt, "memory");
    cover.refine();
    cover.ban(0);
    for &customer in &[0, 1] {
        let alone = [service(customer, 1)];
        cover
            .add_column(alloc, &alone, 90_000)
            .expect(&rt, "memory");
    }
    cover.solve(alloc).expect(&rt, "memory");
    assert_near(&rt, &[sum_of(cover.prices())], &[230_000], 80);
}

/// A problem of three customers, each served just once, whose fourth row is covered by all columns
/// but the last one, twice at most.
fn parted(alloc: Global) -> Result<Cover, AllocError> {
    let once = Row {
        sense: Sense::Exactly,
        count: 1,
    };
    let twice = Row {
        sense: Sense::AtMost,
        count: 2,
    };
    let mut cover = Cover::with_rows(alloc, &[once, once, once, twice], DEAREST)?;
    for customer in [0, 1, 2] {
        let alone = [service(customer, 1), service(3, 1)];
        cover.add_column(alloc, &alone, 100_000)?;
    }
    let all = [service(0, 1), service(1, 1), service(2, 1)];
    cover.add_column(alloc, &all, 600_000)?;
    Ok(cover)
}

#[test]
fn a_row_may_be_covered_exactly_or_so_often_at_most(rt: HostRuntime) {
    let mut cover = parted(rt.alloc()).expect(&rt, "memory");
    cover.refine();
    cover.solve(rt.alloc()).expect(&rt, "memory");
    assert_near(
        &rt,
        cover.prices(),
        &[200_000, 200_000, 200_000, -100_000],
        40,
    );
    let (one, two) = THIRDS;
    let amounts = [two, two, two, one];
    assert_near(&rt, cover.amounts(), &amounts, 1 << 10);
}
