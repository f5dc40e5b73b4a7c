//! A leaf with the way to it, and who may come next there.

ghost use Rattle.std.specs.Prelude.{◌≡◌, ◌↔◌, ◌+◌, ◌^◌, ◌<◌, ◌≤◌, ◌≤ℤ◌, ℕ, IfOk, IsTrue, length, map, true, unsigned_abs};
ghost use Rattle.std.specs.List.{All};
ghost use Rattle.certificate_parts.specs.Ranges.{IsPrice, customer_count};
ghost use Rattle.near_tree.specs.Counting.{counted_as};
ghost use Rattle.near_tree.specs.Entries.{is_in};
ghost use Rattle.near_tree.specs.Follows.{StandsFor, entries_earned, entry_earned};
ghost use Rattle.near_tree.specs.Lasts.{AreRows, IsMayRow, IsServedAt, IsStandRow, are_counted_alike, has_alike, last_at, may_by};
ghost use Rattle.near_tree.specs.Preorder.{last_of};
ghost use Rattle.near_tree.specs.Ranges.{IsLastAmong};
ghost use Rattle.near_tree.specs.Sites.{IsSite, leaf_of};

use crate::counted::CountedSet;
use crate::path::{Turn, permits};
use crate::{LastServed, LeafSection};
use customer_sets::LargeSet;
use instance_reader::Instance;
use std::alloc::{AllocError, Global};

/// A section at a leaf, with the way to it and the sets that are counted there.
///
/// Lasts are told by places: 0 for nobody yet, one more than the number of a customer, and for
/// anybody two more than the greatest number.
#[derive(Clone, Copy)]
pub(crate) struct Site<'a> {
    pub(crate) inst: &'a Instance,
    pub(crate) path: &'a [Turn<'a>],
    pub(crate) counted: &'a [CountedSet],
    pub(crate) section: &'a LeafSection,
}

impl Site<'_> {
    /// How many customers there are.
    pub(crate) fn customers(&self) -> usize
        requires { IsSite self.now }
        ensures value { result ≡ customer_count self.now.inst.now }
        ensures few { result ≤ 400 }
    {
        self.inst.customers().len()
    }

    /// Whether a place may come next after a last.
    fn may(&self, last: usize, next: usize) -> bool
        requires { IsSite self.now }
        ensures { result ≡ may_by (customer_count self.now.inst.now) self.now.path.now last next }
    {
        if last > self.customers() {
            return true;
        }
        if last == 0 && next == 0 {
            return false;
        }
        permits(self.path, last, next)
    }

    /// Who may come next after a last.
    fn may_row(&self, last: usize) -> LargeSet
        requires { IsSite self.now }
        ensures { IsMayRow (customer_count self.now.inst.now) self.now.path.now last result }
    {
        let mut row = LargeSet::empty();
        for next in 0..self.customers() + 1 {
            if self.may(last, next) {
                row = row.with(next);
            }
        }
        row
    }

    /// Who may come next, by lasts.
    pub(crate) fn may_rows(&self, alloc: Global) -> Result<Vec<LargeSet>, AllocError>
        requires { IsSite self.now }
        ensures { IfOk result (λ rows. AreRows
            (IsMayRow (customer_count self.now.inst.now) self.now.path.now)
            (customer_count self.now.inst.now + 2) rows.items) }
    {
        let mut rows = Vec::new(alloc);
        for last in 0..self.customers() + 2 {
            rows.push(self.may_row(last))?;
        }
        Ok(rows)
    }

    /// What coming next after a last earns by counted sets.
    pub(crate) fn earned_next(&self, last: usize, next: usize) -> i128
        requires site { IsSite self.now }
        requires last { last ≤ 448 }
        requires next { next ≤ 448 }
        ensures value { result ≡ entries_earned (leaf_of self.now).branch.counted
            (leaf_of self.now).section.entry_prices
            (last_at (customer_count self.now.inst.now) last) next }
        ensures small { unsigned_abs result ≤ 2 ^ 90 }
    {
        let prices = self.section.entry_prices.as_slice();
        entries_earned(self.counted, prices, self.customers(), last, next)
    }

    /// Whether the one who comes next after a last, where one may, may come next after another last
    /// too, and earns no less there by counted sets.
    fn is_served(&self, may: &[LargeSet], last: usize, other: usize, next: usize) -> bool
        requires site { IsSite self.now }
        requires may { AreRows (IsMayRow (customer_count self.now.inst.now) self.now.path.now)
            (customer_count self.now.inst.now + 2) may.now }
        requires last { last < customer_count self.now.inst.now + 2 }
        requires other { other < customer_count self.now.inst.now + 2 }
        requires next { next ≤ customer_count self.now.inst.now }
        ensures { IsTrue result
            ↔ IsServedAt (customer_count self.now.inst.now) (leaf_of self.now) last other next }
    {
        if !may[other].has(next) {
            return true;
        }
        if !may[last].has(next) {
            return false;
        }
        let least = self.earned_next(other, next);
        let earned = self.earned_next(last, next);
        no_less(earned, least)
    }

    /// Whether it is plain that coming next after either last earns the same: neither is anybody,
    /// and each counted set has both or neither.
    fn earns_alike(&self, last: usize, other: usize) -> bool
        requires site { IsSite self.now }
        requires last { last < customer_count self.now.inst.now + 2 }
        requires other { other < customer_count self.now.inst.now + 2 }
        ensures { result ≡ true → (next : ℕ) → entries_earned (leaf_of self.now).branch.counted
            (leaf_of self.now).section.entry_prices
            (last_at (customer_count self.now.inst.now) other) next
            ≡ entries_earned (leaf_of self.now).branch.counted
            (leaf_of self.now).section.entry_prices
            (last_at (customer_count self.now.inst.now) last) next }
    {
        let customers = self.customers();
        if last > customers || other > customers {
            return false;
        }
        are_counted_alike(self.counted, last, other)
    }

    /// Whether it is plain that one last stands for another: whoever may come next after that may
    /// do so after this, and earns the same.
    fn plainly_stands(&self, may: &[LargeSet], last: usize, other: usize) -> bool
        requires site { IsSite self.now }
        requires may { AreRows (IsMayRow (customer_count self.now.inst.now) self.now.path.now)
            (customer_count self.now.inst.now + 2) may.now }
        requires last { last < customer_count self.now.inst.now + 2 }
        requires other { other < customer_count self.now.inst.now + 2 }
        ensures { result ≡ true → StandsFor self.now.inst.now (leaf_of self.now).branch
            (leaf_of self.now).section (last_at (customer_count self.now.inst.now) last)
            (last_at (customer_count self.now.inst.now) other) }
    {
        if !may[other].is_subset(may[last]) {
            return false;
        }
        self.earns_alike(last, other)
    }

    /// Whether one last stands for another.
    fn stands_for(&self, may: &[LargeSet], last: usize, other: usize) -> bool
        requires site { IsSite self.now }
        requires may { AreRows (IsMayRow (customer_count self.now.inst.now) self.now.path.now)
            (customer_count self.now.inst.now + 2) may.now }
        requires last { last < customer_count self.now.inst.now + 2 }
        requires other { other < customer_count self.now.inst.now + 2 }
        ensures { IsTrue result ↔ StandsFor self.now.inst.now (leaf_of self.now).branch
            (leaf_of self.now).section (last_at (customer_count self.now.inst.now) last)
            (last_at (customer_count self.now.inst.now) other) }
    {
        if self.plainly_stands(may, last, other) {
            return true;
        }
        for next in 0..self.customers() + 1 {
            if !self.is_served(may, last, other, next) {
                return false;
            }
        }
        true
    }

    /// For whom a last stands.
    fn stand_row(&self, may: &[LargeSet], last: usize) -> LargeSet
        requires site { IsSite self.now }
        requires may { AreRows (IsMayRow (customer_count self.now.inst.now) self.now.path.now)
            (customer_count self.now.inst.now + 2) may.now }
        requires last { last < customer_count self.now.inst.now + 2 }
        ensures { IsStandRow self.now.inst.now (leaf_of self.now) last result }
    {
        let mut row = LargeSet::empty();
        for other in 0..self.customers() + 2 {
            if self.stands_for(may, last, other) {
                row = row.with(other);
            }
        }
        row
    }

    /// Which last stands for which.
    pub(crate) fn stand_rows(
        &self,
        alloc: Global,
        may: &[LargeSet],
    ) -> Result<Vec<LargeSet>, AllocError>
        requires site { IsSite self.now }
        requires may { AreRows (IsMayRow (customer_count self.now.inst.now) self.now.path.now)
            (customer_count self.now.inst.now + 2) may.now }
        ensures { IfOk result (λ rows. AreRows (IsStandRow self.now.inst.now (leaf_of self.now))
            (customer_count self.now.inst.now + 2) rows.items) }
    {
        let mut rows = Vec::new(alloc);
        for last in 0..self.customers() + 2 {
            rows.push(self.stand_row(may, last))?;
        }
        Ok(rows)
    }
}

/// The place of a last.
pub(crate) fn last_place(last: LastServed, customers: usize) -> usize
    requires known { IsLastAmong customers (last_of last) }
    requires few { customers ≤ 400 }
    ensures value { last_at customers result ≡ last_of last }
    ensures within { result < customers + 2 }
{
    match last {
        LastServed::Nobody => 0,
        LastServed::Customer(number) => number + 1,
        LastServed::Anybody => customers + 1,
    }
}

/// Whether each counted set has both places or neither.
fn are_counted_alike(counted: &[CountedSet], one: usize, other: usize) -> bool
    requires one { one ≤ 448 }
    requires other { other ≤ 448 }
    ensures { result ≡ are_counted_alike (map counted_as counted.now) one other }
{
    for each in counted {
        if !has_alike(each.set, one, other) {
            return false;
        }
    }
    true
}

/// Whether a set has both places or neither.
fn has_alike(set: LargeSet, one: usize, other: usize) -> bool
    requires one { one ≤ 448 }
    requires other { other ≤ 448 }
    ensures { result ≡ has_alike set one other }
{
    if is_in(set, one) {
        is_in(set, other)
    } else {
        !is_in(set, other)
    }
}

/// What coming next after a last earns by counted sets with entry prices.
fn entries_earned(
    counted: &[CountedSet],
    prices: &[i128],
    customers: usize,
    last: usize,
    next: usize,
) -> i128
    requires few { length counted.now ≤ 64 }
    requires one { length prices.now ≡ length counted.now }
    requires small { All IsPrice prices.now }
    requires last { last ≤ 448 }
    requires next { next ≤ 448 }
    ensures value { result ≡ entries_earned (map counted_as counted.now) prices.now
        (last_at customers last) next }
    ensures small { unsigned_abs result ≤ 2 ^ 90 }
{
    let mut sum = 0;
    for i in 0..counted.len() {
        sum += entry_earned(counted[i].set, prices[i], customers, last, next);
    }
    sum
}

/// What coming next after a last earns by one set with an entry price.
fn entry_earned(set: LargeSet, price: i128, customers: usize, last: usize, next: usize) -> i128
    requires small { IsPrice price }
    requires last { last ≤ 448 }
    requires next { next ≤ 448 }
    ensures value { result ≡ entry_earned set price (last_at customers last) next }
    ensures small { unsigned_abs result ≤ 2 ^ 84 }
{
    if !is_in(set, next) {
        return 0;
    }
    if last > customers {
        return if price > 0 { price } else { 0 };
    }
    if is_in(set, last) { 0 } else { price }
}

/// Whether a number is no less than another.
fn no_less(one: i128, other: i128) -> bool
    ensures { IsTrue result ↔ (other ≤ℤ one) }
{
    other <= one
}

/// Whether a place is that of a customer of a set.
fn is_in(set: LargeSet, place: usize) -> bool
    requires { place ≤ 448 }
    ensures { result ≡ is_in set place }
{
    place > 0 && set.has(place - 1)
}
