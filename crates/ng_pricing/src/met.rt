//! Near routes that were met.

ghost use Rattle.std.specs.Prelude.{◌≡◌, ℕ, ◌+◌, ◌<◌, ◌≤◌, IfNone, IfOk, IfSome, get_or, length, set};
ghost use Rattle.std.specs.List.{All};
ghost use Rattle.ev_model.specs.Feasible.{IsFeasible};
ghost use Rattle.ev_model.specs.Fleet.{times_in};
ghost use Rattle.near_proof.specs.Terms.{earned_by};
ghost use Rattle.ng_pricing.specs.Met.{IsAllowed, IsLimit, IsLowered, IsMeasured, Pays};

use ev_list::Listed;
use instance_reader::Instance;
use near_proof::{earned_by, numbers_of, times_in};
use route_plan::RoutePlan;
use std::alloc::{AllocError, Global};

/// A near route with what is asked of it again and again.
#[derive(Drop)]
pub(crate) struct MetRoute {
    pub(crate) plan: RoutePlan,
    /// The scaled time from a full battery.
    pub(crate) time: u64,
    /// The customers that it serves, by number, each as often as it does.
    pub(crate) numbers: Listed<usize>,
}

/// A price of a customer above which a route would earn more than it takes.
#[derive(Clone, Copy)]
pub(crate) struct Limit {
    pub(crate) price: u64,
    /// The number of the route among those that were met.
    pub(crate) route: usize,
}

impl MetRoute {
    /// The plan with its time and its services.
    pub(crate) fn new(
        alloc: Global,
        inst: &Instance,
        plan: RoutePlan,
    ) -> Result<MetRoute, AllocError>
        requires { IsFeasible inst.now 1 inst.now.capacity plan.stops }
        ensures { IfOk result (IsMeasured inst.now plan) }
    {
        let numbers = numbers_of(alloc, inst, plan.stops.as_slice())?;
        let time = plan.full_time(inst);
        Ok(MetRoute {
            plan,
            time,
            numbers: Listed::from_vec(numbers),
        })
    }

    /// The greatest price of the customer at which the route takes at least what it earns; `None`
    /// exactly where it doesn't serve the customer, whose price is 0 among the prices.
    pub(crate) fn allowed(&self, prices: &[u64], customer: usize) -> Option<u64>
        requires customer { customer < length prices.now }
        requires known { All (λ c. c < length prices.now) self.now.numbers }
        requires few { length self.now.numbers ≤ 128 }
        requires free { get_or prices.now customer 0 ≡ 0 }
        requires pays { Pays prices.now self.now }
        ensures some { IfSome result (IsAllowed prices.now customer self.now) }
        ensures none { IfNone result (times_in self.now.numbers customer ≡ 0) }
    {
        let numbers = self.numbers.as_slice();
        let times = times_in(numbers, customer);
        if times == 0 {
            return None;
        }
        let rest = u128::from(self.time) - earned_by(prices, numbers);
        Some((rest / times as u128) as u64)
    }
    /// Lowers the greatest price of a customer whom the route serves, which earns more than it
    /// takes: to the greatest one at which it doesn't, or to 0 where there is none.
    pub(crate) fn lower(&self, prices: &mut [u64])
        requires known { All (λ c. c < length prices.old) self.now.numbers }
        requires few { length self.now.numbers ≤ 128 }
        requires earns { self.now.time < earned_by prices.old self.now.numbers }
        ensures { IsLowered self.now prices.old prices.new }
    {
        let customer = dearest(prices, self.numbers.as_slice());
        prices[customer] = 0;
        prices[customer] = self.paid(prices, customer);
    }

    /// The greatest price of a customer whom the route serves at which it takes at least what it
    /// earns, and 0 where there is none; among the prices the customer's is 0.
    fn paid(&self, prices: &[u64], customer: usize) -> u64
        requires customer { customer < length prices.now }
        requires known { All (λ c. c < length prices.now) self.now.numbers }
        requires few { length self.now.numbers ≤ 128 }
        requires free { get_or prices.now customer 0 ≡ 0 }
        requires serves { 1 ≤ times_in self.now.numbers customer }
        ensures least { (price : ℕ) → 0 < price →
            self.now.time < earned_by (set prices.now customer price) self.now.numbers →
            result < price }
        ensures most { self.now.time
            < earned_by (set prices.now customer (result + 1)) self.now.numbers }
    {
        if earned_by(prices, self.numbers.as_slice()) > u128::from(self.time) {
            return 0;
        }
        match self.allowed(prices, customer) {
            Some(price) => price,
            None => unreachable!(),
        }
    }
}

/// One of some customers with the greatest price, which is above 0.
fn dearest(prices: &[u64], numbers: &[usize]) -> usize
    requires known { All (λ c. c < length prices.now) numbers.now }
    requires earns { 0 < earned_by prices.now numbers.now }
    ensures known { result < length prices.now }
    ensures serves { 1 ≤ times_in numbers.now result }
    ensures some { 0 < get_or prices.now result 0 }
{
    let mut dearest = numbers[0];
    for number in numbers {
        if prices[*number] > prices[dearest] {
            dearest = *number;
        }
    }
    dearest
}
