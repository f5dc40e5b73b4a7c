//! The bound of a leaf.

ghost use Rattle.std.specs.Prelude.{◌≡◌, ◌↔◌, ◌*◌, ◌^◌, ◌≤◌, ◌*ℤ◌, ◌<ℤ◌, pos, IsTrue, if◌then◌else◌, length, map, unsigned_abs};
ghost use Rattle.std.specs.Int.Signed.{lt_z};
ghost use Rattle.std.specs.List.{All};
ghost use Rattle.certificate_parts.specs.Ranges.{IsPrice};
ghost use Rattle.fleet_model.specs.Prices.{price_total};
ghost use Rattle.near_tree.specs.Bounds.{IsBounded, entries_total};
ghost use Rattle.near_tree.specs.Counting.{IsSmallCount, counted_as};
ghost use Rattle.near_tree.specs.LeafBounds.{IsBoundedBy};
ghost use Rattle.near_tree.specs.Sites.{IsSite, leaf_of};

use crate::counted::CountedSet;
use crate::site::Site;

/// Whether a bound is at most that of a leaf: its sum over its weight, rounded up, or no plan where
/// the weight is 0 and the sum above 0.
pub(crate) fn is_bounded(site: &Site<'_>, bound: Option<u128>) -> bool
    requires { IsSite site.now }
    ensures { IsTrue result ↔ IsBounded bound (leaf_of site.now).branch (leaf_of site.now).section }
{
    let prices = price_total(site.section.prices.as_slice());
    let entries = entries_total(site.counted, site.section.entry_prices.as_slice());
    is_bounded_by(site.section.weight, prices + entries, bound)
}

/// Whether a bound is at most a sum over a weight, rounded up; without one, whether the weight is 0
/// and the sum above 0.
fn is_bounded_by(weight: u64, sum: i128, bound: Option<u128>) -> bool
    requires { unsigned_abs sum ≤ 2 ^ 100 }
    ensures { IsTrue result ↔ IsBoundedBy bound weight sum }
{
    let Some(bound) = bound else {
        return weight == 0 && sum > 0;
    };
    is_below(bound, weight, sum + i128::from(weight))
}

/// Whether a bound times a weight is less than a number.
fn is_below(bound: u128, weight: u64, number: i128) -> bool
    ensures { IsTrue result ↔ (pos (bound * weight) <ℤ number) }
{
    if number <= 0 {
        return false;
    }
    match bound.checked_mul(u128::from(weight)) {
        Some(product) => product < number.unsigned_abs(),
        None => false,
    }
}

/// The sum of all prices.
fn price_total(prices: &[i128]) -> i128
    requires few { length prices.now ≤ 400 }
    requires small { All IsPrice prices.now }
    ensures value { result ≡ price_total prices.now }
    ensures small { unsigned_abs result ≤ 2 ^ 93 }
{
    let mut sum = 0;
    for c in 0..prices.len() {
        sum += prices[c];
    }
    sum
}

/// What all entries into counted sets earn at least.
fn entries_total(counted: &[CountedSet], prices: &[i128]) -> i128
    requires few { length counted.now ≤ 64 }
    requires one { length prices.now ≡ length counted.now }
    requires small { All IsPrice prices.now }
    requires counts { All IsSmallCount counted.now }
    ensures value { result ≡ entries_total (map counted_as counted.now) prices.now }
    ensures small { unsigned_abs result ≤ 2 ^ 99 }
{
    let mut sum = 0;
    for i in 0..counted.len() {
        sum += least_earned(counted[i], prices[i]);
    }
    sum
}

/// What the entries into a set earn at least: the least number of them where the price is above 0,
/// and else the most.
fn least_earned(counted: CountedSet, price: i128) -> i128
    requires counts { IsSmallCount counted }
    requires small { IsPrice price }
    ensures value { result
        ≡ price *ℤ pos (if lt_z (pos 0) price then counted.least else counted.most) }
    ensures small { unsigned_abs result ≤ 2 ^ 93 }
{
    if price > 0 {
        price_times(price, counted.least)
    } else {
        price_times(price, counted.most)
    }
}

/// A price as often as this.
fn price_times(price: i128, times: usize) -> i128
    requires small { IsPrice price }
    requires few { times ≤ 448 }
    ensures value { result ≡ price *ℤ pos times }
    ensures small { unsigned_abs result ≤ 2 ^ 93 }
{
    price * times as i128
}
