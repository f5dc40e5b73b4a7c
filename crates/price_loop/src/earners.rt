//! Who finds routes that earn.

ghost use Rattle.std.specs.Prelude.{◌≡◌, ◌≤◌, ◌^◌, [], ℕ, IfOk, length, unsigned_abs};
ghost use Rattle.std.specs.List.{All};
ghost use Rattle.ev_model.specs.Fleet.{times_in};
ghost use Rattle.price_loop.specs.Columns.{set_of};
ghost use Rattle.price_loop.specs.Problems.{IsEarned, Problem, worth};

use customer_sets::CustSet;
use std::alloc::{AllocError, Global};

/// What a search for routes that earn comes to.
#[derive(Drop)]
pub enum Earned<R: Drop, C: Drop> {
    /// A route that earns, and further ones.
    Better { first: R, further: Vec<R> },
    /// No route earns.
    Closed { closing: C },
}

/// Who finds routes whose customers' prices come to more than their cost, times a weight, or shows
/// that there is none: the pricing problem of column generation.
///
/// Which routes there are, whom they serve and what they cost is for the implementation to say, and
/// also what shows that none earns.
pub trait Earners {
    /// A route.
    type Route: Drop;
    /// What shows that no route earns.
    type Closing: Drop;

    // How many customers there are, which routes, and what shows that none of these earns.
    ghost problem: { Self → Problem Self.Route Self.Closing };

    /// How many customers there are. It takes no memory.
    fn customers(&self) -> usize
        ensures value { result ≡ (problem self.now).customers }
        ensures few { result ≤ 128 };

    /// The customers whom a route serves. It takes no memory.
    fn set(&self, route: &Self::Route) -> CustSet
        requires { (problem self.now).is_route route.now }
        ensures { result ≡ set_of [] ((problem self.now).served route.now) };

    /// What a route costs. It takes no memory.
    fn cost(&self, route: &Self::Route) -> u64
        requires { (problem self.now).is_route route.now }
        ensures { result ≡ (problem self.now).cost route.now };

    /// What the customers of a route are worth at these prices. It takes no memory.
    fn worth(&self, route: &Self::Route, of: &[u64]) -> u128
        requires route { (problem self.now).is_route route.now }
        requires one_price { length of.now ≡ (problem self.now).customers }
        ensures { result ≡ worth of.now ((problem self.now).served route.now) };

    /// Routes that are at hand and earn at these prices, as far as they are told. None says
    /// nothing: it is a guide, and spares searches.
    fn at_hand(
        &self,
        alloc: Global,
        weight: u64,
        prices: &[i128],
    ) -> Result<Vec<Self::Route>, AllocError>
        ensures { IfOk result (λ found. All (problem self.now).is_route found.items) };

    /// Routes that earn at these prices, or what shows that there is none.
    fn earn(
        &self,
        alloc: Global,
        weight: u64,
        prices: &[i128],
    ) -> Result<Earned<Self::Route, Self::Closing>, AllocError>
        requires weight { weight ≤ 2 ^ 40 }
        requires one_price { length prices.now ≡ (problem self.now).customers }
        requires small { All (λ price. unsigned_abs price ≤ 2 ^ 84) prices.now }
        ensures { IfOk result (IsEarned (problem self.now) weight prices.now) };

    // No route serves a customer twice.
    ghost once: { (earners : Self) (route : Self.Route) → (problem earners).is_route route →
        (c : ℕ) → times_in ((problem earners).served route) c ≤ 1 };
}
