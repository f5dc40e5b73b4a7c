//! The basis of a master problem, with its inverse in fixed point. No clause rests on this.

use crate::columns::Column;
use crate::fixed::{ONE, at, narrow, product, put, ratio, rounded};
use crate::rows::{Row, Sense};
use std::alloc::{AllocError, Global};

/// No pivot of a rebuilt basis is smaller, in units of 2^-32: dividing by this one makes an error
/// of rounding 2^14 times as great.
const LEAST_PIVOT: i64 = 1 << 18;

/// A column of a basis.
#[derive(Clone, Copy, Debug, PartialEq, Eq)]
pub(crate) enum Member {
    /// That covers one customer once, dearly.
    Helper(usize),
    /// By which a customer is covered more than once.
    Surplus(usize),
    /// By which a row is covered less often than it may be.
    Slack(usize),
    /// The column of the pool at a place.
    Column(usize),
}

/// A basis.
#[derive(Drop)]
pub(crate) struct Basis {
    /// The members, by row.
    pub(crate) members: Vec<Member>,
    /// The members to begin with, by row.
    firsts: Vec<Member>,
    /// The rows of the inverse.
    rows: Vec<Vec<i64>>,
    /// The row that others are cleared by.
    pivot_row: Vec<i64>,
    /// Sums by customer.
    sums: Vec<i128>,
}

impl Basis {
    /// The basis of the helpers, and of the slack of rows that need no helper.
    pub(crate) fn new(alloc: Global, wanted: &[Row]) -> Result<Basis, AllocError> {
        let firsts = first_members(alloc, wanted)?;
        let mut rows = Vec::with_capacity(alloc, wanted.len())?;
        for _ in 0..wanted.len() {
            rows.push(vec![in alloc; 0; wanted.len()]?)?;
        }
        let mut basis = Basis {
            members: firsts.clone()?,
            firsts,
            rows,
            pivot_row: Vec::with_capacity(alloc, wanted.len())?,
            sums: vec![in alloc; 0; wanted.len()]?,
        };
        basis.reset();
        Ok(basis)
    }

    /// Becomes the basis to begin with.
    pub(crate) fn reset(&mut self) {
        self.clear_rows();
        for (member, first) in self.members.iter_mut().zip(self.firsts.iter()) {
            *member = *first;
        }
    }

    /// Lets the inverse be that of the basis to begin with.
    fn clear_rows(&mut self) {
        for (place, row) in self.rows.iter_mut().enumerate() {
            set_unit(row, place);
        }
    }

    /// What a member costs.
    fn cost_of(&self, columns: &[Column], dearest: i64, member: Member) -> i64 {
        match member {
            Member::Helper(_) => dearest,
            Member::Surplus(_) | Member::Slack(_) => 0,
            Member::Column(place) => match columns.get(place) {
                Some(column) => column.cost,
                None => dearest,
            },
        }
    }

    /// A column times the inverse, by row.
    pub(crate) fn set_entries(&self, columns: &[Column], member: Member, entries: &mut [i64]) {
        for (entry, row) in entries.iter_mut().zip(self.rows.iter()) {
            *entry = sum_over(columns, member, row);
        }
    }

    /// The row of the inverse at a place.
    pub(crate) fn row(&self, place: usize) -> &[i64] {
        match self.rows.get(place) {
            Some(row) => row.as_slice(),
            None => &[],
        }
    }

    /// The basis with a further row, in which its members count so often, and whose room is a
    /// member: what may be added there, or what may be taken.
    pub(crate) fn widened(
        &self,
        alloc: Global,
        counts: &[i64],
        is_most: bool,
    ) -> Result<Basis, AllocError> {
        let place = self.members.len();
        let width = place.saturating_add(1);
        let sign = if is_most { 1 } else { -1 };
        let mut rows = Vec::with_capacity(alloc, width)?;
        for row in &self.rows {
            rows.push(longer(alloc, row, 0)?)?;
        }
        let last = self.combined(alloc, counts, sign)?;
        rows.push(longer(alloc, &last, ONE.saturating_mul(sign))?)?;
        let mut members = self.members.clone()?;
        members.push(if is_most {
            Member::Slack(place)
        } else {
            Member::Surplus(place)
        })?;
        Ok(Basis {
            firsts: members.clone()?,
            members,
            rows,
            pivot_row: Vec::with_capacity(alloc, width)?,
            sums: vec![in alloc; 0; width]?,
        })
    }

    /// The sum over the rows of a count, times a sign the other way round.
    fn combined(&self, alloc: Global, counts: &[i64], sign: i64) -> Result<Vec<i64>, AllocError> {
        let mut sums = vec![in alloc; 0; self.members.len()]?;
        for (count, row) in counts.iter().zip(self.rows.iter()) {
            if *count != 0 {
                let factor = count.saturating_mul(sign).saturating_neg();
                add_times(&mut sums, row, factor);
            }
        }
        Ok(sums)
    }

    /// Adds a count times the column of the inverse at a place to entries, by row.
    pub(crate) fn add_entries(&self, place: usize, count: i64, entries: &mut [i64]) {
        for (entry, row) in entries.iter_mut().zip(self.rows.iter()) {
            *entry = entry.saturating_add(at(row, place).saturating_mul(count));
        }
    }

    /// Lets a column with these entries take the place of a member. Whether all entries of the
    /// inverse are as wide as they need be.
    pub(crate) fn exchange(
        &mut self,
        entries: &[i64],
        place: usize,
        member: Member,
    ) -> Result<bool, AllocError> {
        if let Some(own) = self.members.get_mut(place) {
            *own = member;
        }
        self.pivot(entries, place)
    }

    /// Clears the rows of a column with these entries, but for the row at the place.
    fn pivot(&mut self, entries: &[i64], place: usize) -> Result<bool, AllocError> {
        let Some(row) = self.rows.get_mut(place) else {
            return Ok(true);
        };
        if !divide(row, at(entries, place)) {
            return Ok(false);
        }
        self.pivot_row.clear();
        self.pivot_row.extend_from_slice(row)?;
        let mut fits = true;
        for (other, row) in self.rows.iter_mut().enumerate() {
            let factor = at(entries, other);
            if other != place && factor != 0 {
                fits = subtract(row, &self.pivot_row, factor) && fits;
            }
        }
        Ok(fits)
    }

    /// Works out the inverse anew, by the columns of the pool of few services first. A helper takes
    /// the place of a member that depends on others. `entries` are those of a column. Whether all
    /// entries are as wide as they need be.
    pub(crate) fn rebuild(
        &mut self,
        alloc: Global,
        columns: &[Column],
        entries: &mut [i64],
    ) -> Result<bool, AllocError> {
        let order = self.by_length(alloc, columns)?;
        let mut places = vec![in alloc; None; self.members.len()]?;
        self.reset();
        let mut fits = true;
        for (_, _, member) in &order {
            self.set_entries(columns, *member, entries);
            if let Some(place) = largest_free(entries, &places) {
                if let Some(own) = places.get_mut(place) {
                    *own = Some(*member);
                }
                fits = self.exchange(entries, place, *member)? && fits;
            }
        }
        Ok(fits)
    }

    /// The members, those with few services first, with their numbers of services and places.
    fn by_length(
        &self,
        alloc: Global,
        columns: &[Column],
    ) -> Result<Vec<(usize, usize, Member)>, AllocError> {
        let mut order = Vec::with_capacity(alloc, self.members.len())?;
        for (place, member) in self.members.iter().enumerate() {
            order.push((length_of(columns, *member), place, *member))?;
        }
        order.sort_by_key(|item| (item.0, item.1))?;
        Ok(order)
    }

    /// The sum over the members of a weight for each of them, times their rows: a number by
    /// customer.
    fn add_combined(&mut self, weights: &[i64], numbers: &mut [i64]) {
        for sum in self.sums.iter_mut() {
            *sum = 0;
        }
        for (weight, row) in weights.iter().zip(self.rows.iter()) {
            if *weight != 0 {
                add_row(&mut self.sums, row, *weight);
            }
        }
        for (number, sum) in numbers.iter_mut().zip(self.sums.iter()) {
            *number = number.saturating_add(narrow(rounded(*sum)));
        }
    }

    /// The prices at which no member costs more or less than its services earn, and by how much one
    /// does so all the same at the most. `costs` are of use by the way.
    pub(crate) fn find_prices(
        &mut self,
        columns: &[Column],
        dearest: i64,
        costs: &mut [i64],
        prices: &mut [i64],
    ) -> i64 {
        for price in prices.iter_mut() {
            *price = 0;
        }
        self.find_residuals(columns, dearest, prices, costs);
        self.add_combined(costs, prices);
        self.find_residuals(columns, dearest, prices, costs);
        self.add_combined(costs, prices);
        self.find_residuals(columns, dearest, prices, costs)
    }

    /// What the members cost beyond what their services earn, by row, and the greatest of these,
    /// whether more or less.
    fn find_residuals(
        &self,
        columns: &[Column],
        dearest: i64,
        prices: &[i64],
        residuals: &mut [i64],
    ) -> i64 {
        let mut most = 0;
        for (residual, member) in residuals.iter_mut().zip(self.members.iter()) {
            let cost = self.cost_of(columns, dearest, *member);
            *residual = cost.saturating_sub(sum_over(columns, *member, prices));
            most = most.max(residual.saturating_abs());
        }
        most
    }

    /// By which amounts of the members these numbers are covered, by row. `left` is of use by the
    /// way.
    pub(crate) fn find_amounts(
        &self,
        columns: &[Column],
        right: &[i64],
        left: &mut [i64],
        amounts: &mut [i64],
    ) {
        for amount in amounts.iter_mut() {
            *amount = 0;
        }
        for _ in 0..2 {
            for (own, number) in left.iter_mut().zip(right) {
                *own = *number;
            }
            for (amount, member) in amounts.iter().zip(self.members.iter()) {
                take_member(columns, *member, *amount, left);
            }
            for (amount, row) in amounts.iter_mut().zip(self.rows.iter()) {
                *amount = amount.saturating_add(narrow(rounded(sum_of_products(row, left))));
            }
        }
    }
}

/// The members of the basis to begin with: the slack of a row that may be left uncovered, else its
/// helper.
fn first_members(alloc: Global, wanted: &[Row]) -> Result<Vec<Member>, AllocError> {
    let mut members = Vec::with_capacity(alloc, wanted.len())?;
    for (place, row) in wanted.iter().enumerate() {
        members.push(match row.sense {
            Sense::AtLeast | Sense::Exactly => Member::Helper(place),
            Sense::AtMost => Member::Slack(place),
        })?;
    }
    Ok(members)
}

/// Lets a row be that of the unit matrix.
fn set_unit(row: &mut [i64], place: usize) {
    for entry in row.iter_mut() {
        *entry = 0;
    }
    put(row, place, ONE);
}

/// How many customers a member serves, 0 where it is no column of the pool.
fn length_of(columns: &[Column], member: Member) -> usize {
    match member {
        Member::Helper(_) | Member::Surplus(_) | Member::Slack(_) => 0,
        Member::Column(place) => match columns.get(place) {
            Some(column) => column.services.len(),
            None => 0,
        },
    }
}

/// The sum over a member's services of a number for each customer.
pub(crate) fn sum_over(columns: &[Column], member: Member, numbers: &[i64]) -> i64 {
    match member {
        Member::Helper(row) | Member::Slack(row) => at(numbers, row),
        Member::Surplus(row) => at(numbers, row).saturating_neg(),
        Member::Column(place) => match columns.get(place) {
            Some(column) => column.sum_of(numbers),
            None => 0,
        },
    }
}

/// Takes an amount of a member from what is left, by customer.
fn take_member(columns: &[Column], member: Member, amount: i64, left: &mut [i64]) {
    match member {
        Member::Helper(row) | Member::Slack(row) => take(left, row, amount),
        Member::Surplus(row) => take(left, row, amount.saturating_neg()),
        Member::Column(place) => {
            if let Some(column) = columns.get(place) {
                for service in &column.services {
                    take(left, service.customer, amount.saturating_mul(service.count));
                }
            }
        }
    }
}

/// Takes an amount from what is left of a customer.
fn take(left: &mut [i64], customer: usize, amount: i64) {
    let own = at(left, customer);
    put(left, customer, own.saturating_sub(amount));
}

/// The place of the entry furthest from 0 of those whose places are free, where that is far enough
/// for a pivot.
fn largest_free(entries: &[i64], places: &[Option<Member>]) -> Option<usize> {
    let mut largest = None;
    let mut most = LEAST_PIVOT - 1;
    for (place, (entry, taken)) in entries.iter().zip(places).enumerate() {
        if taken.is_none() && entry.saturating_abs() > most {
            most = entry.saturating_abs();
            largest = Some(place);
        }
    }
    largest
}

/// Divides a row. Whether all its entries are as wide as they need be.
fn divide(row: &mut [i64], by: i64) -> bool {
    let mut fits = true;
    for entry in row.iter_mut() {
        match ratio(*entry, by) {
            Some(part) => *entry = part,
            None => fits = false,
        }
    }
    fits
}

/// Takes another row times a factor from a row. Whether all its entries are as wide as they need
/// be.
fn subtract(row: &mut [i64], other: &[i64], factor: i64) -> bool {
    let mut fits = true;
    for (entry, by) in row.iter_mut().zip(other) {
        let left = i128::from(*entry).saturating_sub(rounded(product(factor, *by)));
        match i64::try_from(left) {
            Ok(left) => *entry = left,
            Err(_) => fits = false,
        }
    }
    fits
}

/// A row with a further entry.
fn longer(alloc: Global, row: &[i64], entry: i64) -> Result<Vec<i64>, AllocError> {
    let mut own = Vec::with_capacity(alloc, row.len().saturating_add(1))?;
    own.extend_from_slice(row)?;
    own.push(entry)?;
    Ok(own)
}

/// Adds a row times a whole factor to sums.
fn add_times(sums: &mut [i64], row: &[i64], factor: i64) {
    for (sum, entry) in sums.iter_mut().zip(row) {
        *sum = sum.saturating_add(entry.saturating_mul(factor));
    }
}

/// Adds a row times a weight to sums.
fn add_row(sums: &mut [i128], row: &[i64], weight: i64) {
    for (sum, entry) in sums.iter_mut().zip(row) {
        *sum = sum.saturating_add(product(weight, *entry));
    }
}

/// The sum of the products of numbers at the same places.
fn sum_of_products(one: &[i64], other: &[i64]) -> i128 {
    let mut sum: i128 = 0;
    for (own, number) in one.iter().zip(other) {
        sum = sum.saturating_add(product(*own, *number));
    }
    sum
}
