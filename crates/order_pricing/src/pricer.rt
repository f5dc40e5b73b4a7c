//! What orders cost: the least times of routes.

ghost use Rattle.std.specs.Prelude.{◌≡◌, ◌≤◌, ◌≢◌, [], ℕ, IfOk, MatchOption};
ghost use Rattle.ev_model.specs.Network.{scaled_limit};
ghost use Rattle.order_pricing.specs.Orders.{IsLeastTime, IsOrder};
ghost use Rattle.order_pricing.specs.Pricing.{AreLess, AreNoLess, IsKnownOf, IsTimeBelow, IsTimeOf, Tells};

use crate::charging::{charge, charge_below};
use crate::known::{Known, recall, remember};
use frvcp_labels::RouteBounds;
use indexmap::IndexMap;
use instance_reader::Instance;
use std::alloc::{AllocError, Global};
use std::marker::Model;

/// Tells the least times of routes. Contracts see the network.
#[derive(Drop)]
pub struct Pricer<'a> {
    inst: &'a Instance,
    bounds: RouteBounds<'a>,
    /// What was found out, by the order of the customers.
    known: IndexMap<Vec<usize>, Known>,
    /// How much work was done: a customer looked at is one unit, and charging an order of n
    /// customers takes n squared. No time that is told rests on it.
    work: u64,
}

impl<'a> Model for Pricer<'a> {
    ghost use Rattle.ev_model.specs.Network.{Network};

    ghost Value = { Network };

    ghost use Rattle.order_pricing.specs.PricerView.{IsPricer};

    ghost view = { λ p. p.inst.now };

    ghost invariant = { IsPricer };
}

impl<'a> Pricer<'a> {
    /// A pricer for an instance.
    pub fn new(alloc: Global, inst: &'a Instance) -> Result<Pricer<'a>, AllocError>
        ensures { IfOk result (λ pricer. pricer ≡ inst.now) }
    {
        let bounds = RouteBounds::new(alloc, inst)?;
        let known = IndexMap::new(alloc);
        Ok(Pricer {
            inst,
            bounds,
            known,
            work: 0,
        })
    }

    /// How much work was done, in customers looked at; charging an order of n customers takes as
    /// much as looking at n squared. It is for choices, and nothing is promised of it.
    pub fn work(&self) -> u64 {
        self.work
    }

    /// The least times of two orders; `None` exactly where one has none, or where together they are
    /// no less than `than`. Each is charged only as far as it may matter.
    pub fn least_times(
        &mut self,
        alloc: Global,
        first: &[usize],
        second: &[usize],
        than: u128,
    ) -> Result<Option<(u64, u64)>, AllocError>
        requires first { IsOrder self.old first.now }
        requires second { IsOrder self.old second.now }
        ensures network { self.new ≡ self.old }
        ensures times { IfOk result (λ found. MatchOption found
            (AreNoLess self.old first.now second.now than)
            (AreLess self.old first.now second.now than)) }
    {
        let customers = (first.len() as u64).saturating_add(second.len() as u64);
        self.work = self.work.saturating_add(customers);
        let second_lower = self.lower(second);
        if self.lower(first).saturating_add(second_lower) >= than {
            return Ok(None);
        }
        let Some(first_time) = self.time_below(alloc, first, than - second_lower)? else {
            return Ok(None);
        };
        let left = than - u128::from(first_time);
        let Some(second_time) = self.time_below(alloc, second, left)? else {
            return Ok(None);
        };
        Ok(Some((first_time, second_time)))
    }

    /// A time than which the least time of an order is no less: the greatest number where the bound
    /// is past the limit, since then there is no such time.
    fn lower(&self, order: &[usize]) -> u128
        requires { IsOrder self.now order.now }
        ensures { (time : ℕ) → IsLeastTime self.now order.now time → result ≤ time }
    {
        if order.is_empty() {
            return 0;
        }
        let bound = self.bounds.bound(order);
        if u128::from(self.inst.scaled_limit()) < bound {
            return u128::MAX;
        }
        bound
    }

    /// The least time of an order; `None` exactly where it has none. It is charged, and remembered.
    pub fn least_time(&mut self, alloc: Global, order: &[usize]) -> Result<Option<u64>, AllocError>
        requires { IsOrder self.old order.now }
        ensures network { self.new ≡ self.old }
        ensures time { IfOk result (IsTimeOf self.old order.now) }
    {
        if order.is_empty() {
            return Ok(Some(0));
        }
        self.count_charging(order);
        let time = charge(alloc, self.inst, order)?;
        if let Some(time) = time {
            remember(alloc, self.inst, &mut self.known, order, Known::Time(time))?;
        }
        Ok(time)
    }

    /// The least time of an order, where that is less than `bar`; `None` exactly where it has none
    /// that is.
    ///
    /// What is found out is remembered. An order is charged below a bar once, and where that didn't
    /// tell enough, a second time below any bar.
    pub fn time_below(
        &mut self,
        alloc: Global,
        order: &[usize],
        bar: u128,
    ) -> Result<Option<u64>, AllocError>
        requires { IsOrder self.old order.now }
        ensures network { self.new ≡ self.old }
        ensures time { IfOk result (IsTimeBelow self.old order.now bar) }
    {
        if order.is_empty() {
            return Ok(Known::Time(0).below(bar));
        }
        let told = self.told_below(alloc, order, bar)?;
        Ok(told.below(bar))
    }

    /// What is known of an order, where that tells its least time below a bar; else it is charged.
    fn told_below(&mut self, alloc: Global, order: &[usize], bar: u128) -> Result<Known, AllocError>
        requires order { IsOrder self.old order.now }
        requires some { order.now ≢ [] }
        ensures network { self.new ≡ self.old }
        ensures known { IfOk result (IsKnownOf self.old order.now) }
        ensures tells { IfOk result (Tells bar) }
    {
        match recall(self.inst, &self.known, order) {
            Some(told) if told.tells(bar) => Ok(told),
            Some(_) => self.learn(alloc, order, u128::MAX),
            None => {
                self.count_charging(order);
                self.learn(alloc, order, bar)
            }
        }
    }

    /// Charges an order below a bar, and remembers what that tells.
    fn learn(&mut self, alloc: Global, order: &[usize], bar: u128) -> Result<Known, AllocError>
        requires order { IsOrder self.old order.now }
        requires some { order.now ≢ [] }
        ensures network { self.new ≡ self.old }
        ensures known { IfOk result (IsKnownOf self.old order.now) }
        ensures tells { IfOk result (λ told. (least : ℕ) → least ≤ bar → Tells least told) }
    {
        let told = charge_below(alloc, self.inst, &self.bounds, order, bar)?;
        remember(alloc, self.inst, &mut self.known, order, told)?;
        Ok(told)
    }

    /// Counts the work of charging an order.
    fn count_charging(&mut self, order: &[usize])
        ensures { self.new ≡ self.old }
    {
        let customers = order.len() as u64;
        self.work = self
            .work
            .saturating_add(customers.saturating_mul(customers));
    }
}
