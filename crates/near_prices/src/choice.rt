//! Which routes are taken at once. No clause rests on this.

use crate::numbers::{at, put};
use crate::routes::Route;
use customer_sets::LargeSet;
use std::alloc::{AllocError, Global};

/// So many routes are taken at the most.
const MOST_ROUTES: usize = 120;

/// No route is taken all of whose customers stand on so many that were taken.
const SPREAD: i64 = 8;

/// The routes that are taken at once: one a set of customers, and some for each customer.
#[derive(Drop)]
pub(crate) struct Choice {
    /// On how many of them each customer stands.
    taken: Vec<i64>,
    sets: Vec<LargeSet>,
}

impl Choice {
    /// No route yet.
    pub(crate) fn new(alloc: Global, customers: usize) -> Result<Choice, AllocError> {
        Ok(Choice {
            taken: vec![in alloc; 0; customers]?,
            sets: Vec::new(alloc),
        })
    }

    /// Whether there are enough.
    pub(crate) fn is_full(&self) -> bool {
        self.sets.len() >= MOST_ROUTES
    }

    /// How many there are.
    pub(crate) fn len(&self) -> usize {
        self.sets.len()
    }

    /// Takes a route, where it is of use. Whether it is.
    pub(crate) fn take(&mut self, route: &Route) -> Result<bool, AllocError> {
        if self.is_full() || self.is_enough(route) || self.sets.contains(&route.served) {
            return Ok(false);
        }
        self.sets.push(route.served)?;
        for service in &route.services {
            let count = at(&self.taken, service.customer);
            put(&mut self.taken, service.customer, count.saturating_add(1));
        }
        Ok(true)
    }

    /// Whether each customer of a route stands on enough routes.
    fn is_enough(&self, route: &Route) -> bool {
        for customer in &route.order {
            if at(&self.taken, *customer) < SPREAD {
                return false;
            }
        }
        true
    }
}
