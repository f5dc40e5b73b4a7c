//! Routes that a search saw: the cheapest of each set of customers.

use crate::memo::hash_of_set;
use indexmap::IndexMap;
use std::alloc::{AllocError, Global};

/// So many are handed on at the most.
const MOST_SEEN: usize = 20_000;

/// An order of customers, by number, and what a route takes that serves them so.
#[derive(Drop)]
pub(crate) struct SeenOrder {
    pub(crate) order: Vec<usize>,
    pub(crate) time: u64,
}

/// Orders, by the hashes of their sets of customers.
#[derive(Drop)]
pub(crate) struct Seen {
    places: IndexMap<u64, usize>,
    pub(crate) orders: Vec<SeenOrder>,
}

impl Seen {
    pub(crate) fn new(alloc: Global) -> Seen {
        Seen {
            places: IndexMap::new(alloc),
            orders: Vec::new(alloc),
        }
    }

    /// Adds an order, where there is room, or puts it in the place of a slower one of the same
    /// customers.
    pub(crate) fn add(
        &mut self,
        alloc: Global,
        order: &[usize],
        time: u64,
    ) -> Result<(), AllocError> {
        let hash = hash_of_set(order);
        let place = match self.places.get(&hash) {
            Some(place) => Some(*place),
            None => None,
        };
        match place {
            Some(place) => {
                if let Some(own) = self.orders.get_mut(place) {
                    if time < own.time {
                        own.order.clear();
                        own.order.extend_from_slice(order)?;
                        own.time = time;
                    }
                }
            }
            None if self.orders.len() < MOST_SEEN => {
                let mut copy = Vec::with_capacity(alloc, order.len())?;
                copy.extend_from_slice(order)?;
                self.places.insert(hash, self.orders.len())?;
                self.orders.push(SeenOrder { order: copy, time })?;
            }
            None => {}
        }
        Ok(())
    }
}
