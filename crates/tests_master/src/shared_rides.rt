//! Rides of one or two customers: where the numbers of a basis may be no greater than 1, the price
//! loop ends at one that is past this, and prices rise all the same.

ghost use Rattle.std.specs.Prelude.{◌≡◌, ◌<◌, ◌≤◌, ◌↔◌, ◌*◌, ◌^◌, ◌<ℤ◌, ◌≤ℤ◌, IfSome, IsNone, IsTrue, length, ℕ, pos, unsigned_abs};
ghost use Rattle.std.specs.List.{All};
ghost use Rattle.fleet_model.specs.Prices.{price_sum};
ghost use Rattle.tests_master.specs.SharedRides.{cost, served};

use customer_sets::CustSet;
use master_table::Caps;
use price_loop::{Earned, Earners, LoopEnd, Risen, price_out, rise};
use std::alloc::{AllocError, Global};

/// Some customers, each of whom may ride alone or with one other.
#[derive(Drop)]
struct SharedRides {
    customers: usize,
    ghost few: { customers ≤ 128 },
}

/// What a ride costs.
fn fare(first: usize, last: usize) -> u64
    ensures { result ≡ cost (first, last) }
{
    if first == last { 8 } else { 11 }
}

/// The price sum of the customers of a ride.
fn paid(prices: &[i128], first: usize, last: usize) -> i128
    requires first { first < length prices.now }
    requires last { last < length prices.now }
    requires small { All (λ price. unsigned_abs price ≤ 2 ^ 84) prices.now }
    ensures { result ≡ price_sum prices.now (served (first, last)) }
{
    if first == last {
        prices[first]
    } else {
        prices[first] + prices[last]
    }
}

/// Whether a ride earns at a weight and prices.
fn earns(weight: u64, prices: &[i128], first: usize, last: usize) -> bool
    requires first { first < length prices.now }
    requires last { last < length prices.now }
    requires small { All (λ price. unsigned_abs price ≤ 2 ^ 84) prices.now }
    ensures { IsTrue result ↔
        (pos (weight * cost (first, last)) <ℤ price_sum prices.now (served (first, last))) }
{
    let fare = i128::from(weight) * i128::from(fare(first, last));
    fare < paid(prices, first, last)
}

/// A ride that earns with this first customer.
fn earning_from(weight: u64, prices: &[i128], first: usize) -> Option<(usize, usize)>
    requires first { first < length prices.now }
    requires small { All (λ price. unsigned_abs price ≤ 2 ^ 84) prices.now }
    ensures some { IfSome result (λ ride. (ride.0 ≤ ride.1) × (ride.1 < length prices.now) ×
        (pos (weight * cost ride) <ℤ price_sum prices.now (served ride))) }
    ensures none { IsNone result → (last : ℕ) → first ≤ last → last < length prices.now →
        price_sum prices.now (served (first, last)) ≤ℤ pos (weight * cost (first, last)) }
{
    for last in first..prices.len() {
        if earns(weight, prices, first, last) {
            return Some((first, last));
        }
    }
    None
}

impl Earners for SharedRides {
    type Route = (usize, usize);

    type Closing = ();

    ghost use Rattle.std.proofs.Common.{arith};
    ghost use Rattle.std.proofs.lemmas.Bool.Decides.{nat_tests};
    ghost use Rattle.tests_master.specs.SharedRides.{rides};

    ghost problem = { λ s. rides s.customers };

    fn customers(&self) -> usize {
        self.customers
    }

    fn set(&self, route: &(usize, usize)) -> CustSet {
        let (first, last) = *route;
        let alone = CustSet::empty().with(first);
        if first == last {
            alone
        } else {
            alone.with(last)
        }
    }

    fn cost(&self, route: &(usize, usize)) -> u64 {
        fare(route.0, route.1)
    }

    fn worth(&self, route: &(usize, usize), of: &[u64]) -> u128 {
        let (first, last) = *route;
        let alone = u128::from(of[first]);
        if first == last {
            alone
        } else {
            alone + u128::from(of[last])
        }
    }

    fn at_hand(
        &self,
        alloc: Global,
        _weight: u64,
        _prices: &[i128],
    ) -> Result<Vec<(usize, usize)>, AllocError> {
        Ok(Vec::new(alloc))
    }

    fn earn(
        &self,
        alloc: Global,
        weight: u64,
        prices: &[i128],
    ) -> Result<Earned<(usize, usize), ()>, AllocError> {
        for first in 0..self.customers {
            if let Some(ride) = earning_from(weight, prices, first) {
                return Ok(Earned::Better {
                    first: ride,
                    further: Vec::new(alloc),
                });
            }
        }
        Ok(Earned::Closed { closing: () })
    }

    ghost once = { λ s r is c. Prim.grind (arith, nat_tests) };
}

/// What the price loop of three customers ends with, within caps: the weight, the sum of the prices
/// and how many columns the basis has, or only the latter where it is past the caps.
fn ended(alloc: Global, body: u64) -> Option<(Option<(u64, i128)>, usize)>
    requires some { 1 ≤ body }
    requires small { body ≤ 2 ^ 40 }
{
    let rides = SharedRides { customers: 3 };
    let caps = Caps {
        body,
        cost: 1 << 84,
    };
    match price_out(alloc, &rides, caps, Vec::new(alloc)).ok()? {
        LoopEnd::Wide { basis, .. } => Some((None, basis.len())),
        LoopEnd::Closed { lp, basis, .. } => {
            let mut sum = 0i128;
            for price in &lp.prices {
                sum = sum.saturating_add(*price);
            }
            Some((Some((lp.weight, sum)), basis.len()))
        }
    }
}

#[test]
fn the_loop_ends_at_a_basis_past_its_caps(rt: HostRuntime) {
    let alloc = rt.alloc();
    assert_eq!(rt; ended(alloc, 2), Some((Some((2, 33)), 3)));
    assert_eq!(rt; ended(alloc, 1), Some((None, 3)));
}

/// Whether the prices of three customers rise to these.
fn risen(alloc: Global, these: &[i128]) -> Option<bool> {
    let rides = SharedRides { customers: 3 };
    match rise(alloc, &rides, 12).ok()? {
        Risen::Priced { prices, .. } => Some(prices.as_slice() == these),
        Risen::Nowhere { .. } => None,
    }
}

#[test]
fn prices_rise_customer_by_customer(rt: HostRuntime) {
    assert_eq!(rt; risen(rt.alloc(), &[8, 3, 3]), Some(true));
}
