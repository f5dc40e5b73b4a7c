//! The columns of a master problem. No clause rests on this.

use crate::fixed::{at, narrow, product};
use std::alloc::{AllocError, Global};

/// No column costs more.
const MOST_COST: i64 = 1 << 61;

/// How often a column serves a customer, or counts in another row.
#[derive(Clone, Copy, Debug, PartialEq, Eq)]
pub struct Service {
    /// The customer's number, or that of the row.
    pub customer: usize,
    pub count: i64,
}

/// A column: whom it serves, and what it costs.
#[derive(Drop)]
pub(crate) struct Column {
    pub(crate) services: Vec<Service>,
    pub(crate) cost: i64,
    is_banned: bool,
}

impl Column {
    /// A column.
    pub(crate) fn new(
        alloc: Global,
        services: &[Service],
        cost: u64,
    ) -> Result<Column, AllocError> {
        let mut own = Vec::with_capacity(alloc, services.len())?;
        own.extend_from_slice(services)?;
        Ok(Column {
            services: own,
            cost: narrow(i128::from(cost)).min(MOST_COST),
            is_banned: false,
        })
    }

    /// The sum over its services of a number for each customer.
    pub(crate) fn sum_of(&self, numbers: &[i64]) -> i64 {
        let mut sum: i64 = 0;
        for service in &self.services {
            let part = at(numbers, service.customer).saturating_mul(service.count);
            sum = sum.saturating_add(part);
        }
        sum
    }

    /// What it costs beyond the prices of its services.
    pub(crate) fn reduced_cost(&self, prices: &[i64]) -> i64 {
        self.cost.saturating_sub(self.sum_of(prices))
    }

    /// What it costs beyond the prices of its services, where that is below 0 and it may be taken,
    /// else 0.
    pub(crate) fn cost_below(&self, prices: &[i64]) -> i64 {
        if self.is_active() {
            self.reduced_cost(prices).min(0)
        } else {
            0
        }
    }

    /// Whether it may be taken.
    pub(crate) fn is_active(&self) -> bool {
        !self.is_banned
    }

    /// What those services earn whose prices are above 0.
    pub(crate) fn gains(&self, prices: &[i64]) -> i64 {
        let mut sum: i64 = 0;
        for service in &self.services {
            let price = at(prices, service.customer).max(0);
            sum = sum.saturating_add(price.saturating_mul(service.count));
        }
        sum
    }

    /// How many services there are.
    pub(crate) fn service_count(&self) -> i64 {
        let mut count: i64 = 0;
        for service in &self.services {
            count = count.saturating_add(service.count);
        }
        count
    }

    /// Lets a column be as dear as helpers for all its services, and not be taken any more.
    pub(crate) fn ban(&mut self, dearest: i64) {
        self.cost = narrow(product(dearest, self.service_count())).min(MOST_COST);
        self.is_banned = true;
    }
}

/// For each customer, by number, the places of the columns that serve him, with how often they do.
/// Columns that aren't active are left out.
pub(crate) fn columns_by_customer(
    alloc: Global,
    columns: &[Column],
    customers: usize,
) -> Result<Vec<Vec<(usize, i64)>>, AllocError> {
    let mut all = Vec::new(alloc);
    for _ in 0..customers {
        all.push(Vec::new(alloc))?;
    }
    for (place, column) in columns.iter().enumerate() {
        if column.is_active() {
            push_services(&mut all, place, column)?;
        }
    }
    Ok(all)
}

/// Appends a column to the lists of those whom it serves.
fn push_services(
    all: &mut Vec<Vec<(usize, i64)>>,
    place: usize,
    column: &Column,
) -> Result<(), AllocError> {
    for service in &column.services {
        if let Some(own) = all.get_mut(service.customer) {
            own.push((place, service.count))?;
        }
    }
    Ok(())
}
