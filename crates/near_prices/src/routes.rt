//! Near routes as columns. No clause rests on this.

use crate::numbers::{at, is_in, signed, with};
use crate::question::{EntryRange, KnownRoute};
use cover_prices::Service;
use customer_sets::LargeSet;
use near_completion::{Follow, NearTerms};
use std::alloc::{AllocError, Global};

/// What a route is in the master problem.
#[derive(Clone, Copy, Debug, PartialEq, Eq)]
pub(crate) enum Standing {
    /// It waits until it earns.
    Waiting,
    /// It is a column, at a place.
    Column(usize),
    /// It may not be taken any more.
    Banned,
}

/// A near route.
#[derive(Drop)]
pub(crate) struct Route {
    /// The customers that it serves, in order.
    pub(crate) order: Vec<usize>,
    /// What it takes, in scaled time.
    pub(crate) time: u64,
    /// The same, weighted.
    pub(crate) cost: u64,
    /// How often it serves each customer, and counts in further rows.
    pub(crate) services: Vec<Service>,
    /// Whom it serves.
    pub(crate) served: LargeSet,
    pub(crate) standing: Standing,
}

impl Route {
    /// A route that waits. Behind the rows of the customers each counted set has two.
    pub(crate) fn new(
        alloc: Global,
        customers: usize,
        entries: &[EntryRange],
        order: Vec<usize>,
        time: u64,
        weight: u32,
    ) -> Result<Route, AllocError> {
        let mut services = Vec::new(alloc);
        let mut served = LargeSet::empty();
        for customer in &order {
            served = with(served, *customer);
            count_service(&mut services, *customer)?;
        }
        count_entries(&mut services, customers, entries, &order)?;
        Ok(Route {
            order,
            time,
            cost: time.saturating_mul(u64::from(weight)),
            services,
            served,
            standing: Standing::Waiting,
        })
    }

    /// What it takes beyond what it earns by the prices of the rows.
    pub(crate) fn reduced_cost(&self, prices: &[i64]) -> i64 {
        let mut cost = signed(self.cost);
        for service in &self.services {
            let part = at(prices, service.customer).saturating_mul(service.count);
            cost = cost.saturating_sub(part);
        }
        cost
    }

    /// Its order and what it takes.
    pub(crate) fn into_known(self) -> KnownRoute {
        let Route {
            order,
            time,
            cost: _,
            services: _,
            served: _,
            standing: _,
        } = self;
        KnownRoute { order, time }
    }

    /// How often it serves a customer, or counts in another row.
    pub(crate) fn count_of(&self, row: usize) -> i64 {
        for service in &self.services {
            if service.customer == row {
                return service.count;
            }
        }
        0
    }

    /// Whether it may be taken.
    pub(crate) fn is_open(&self) -> bool {
        self.standing != Standing::Banned
    }

    /// Whether it serves each customer once at most.
    pub(crate) fn is_plain(&self) -> bool {
        self.served.len() == self.order.len()
    }

    /// Whether it serves nobody who is remembered.
    pub(crate) fn is_near(&self, terms: &NearTerms) -> bool {
        let mut memory = LargeSet::empty();
        for customer in &self.order {
            if is_in(memory, *customer) {
                return false;
            }
            memory = terms.after(memory, *customer);
        }
        true
    }

    /// Whether those who come next may.
    pub(crate) fn is_allowed(&self, follow: &Follow) -> bool {
        let mut last = None;
        for customer in &self.order {
            if !follow.allows(last, Some(*customer)) {
                return false;
            }
            last = Some(*customer);
        }
        follow.allows(last, None)
    }
}

/// Counts a service of a customer.
fn count_service(services: &mut Vec<Service>, customer: usize) -> Result<(), AllocError> {
    for service in services.iter_mut() {
        if service.customer == customer {
            service.count = service.count.saturating_add(1);
            return Ok(());
        }
    }
    push_service(services, customer, 1)
}

/// Counts the entries of an order into sets, each in both rows of the set.
fn count_entries(
    services: &mut Vec<Service>,
    customers: usize,
    entries: &[EntryRange],
    order: &[usize],
) -> Result<(), AllocError> {
    for (place, entry) in entries.iter().enumerate() {
        let count = entries_of(order, entry.set);
        if count > 0 {
            let row = customers.saturating_add(place.saturating_mul(2));
            push_service(services, row, count)?;
            push_service(services, row.saturating_add(1), count)?;
        }
    }
    Ok(())
}

/// Appends a service.
fn push_service(
    services: &mut Vec<Service>,
    customer: usize,
    count: i64,
) -> Result<(), AllocError> {
    services.push(Service { customer, count })?;
    Ok(())
}

/// How often an order enters a set.
pub(crate) fn entries_of(order: &[usize], set: LargeSet) -> i64 {
    let mut count: i64 = 0;
    let mut was_in = false;
    for customer in order {
        let is_now = is_in(set, *customer);
        if is_now && !was_in {
            count = count.saturating_add(1);
        }
        was_in = is_now;
    }
    count
}
