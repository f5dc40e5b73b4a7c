//! Near routes that were found. No clause rests on this.

use crate::state::{is_in, with};
use customer_sets::LargeSet;
use near_completion::Ground;
use std::alloc::{AllocError, Global};

/// A near route.
#[derive(Drop)]
pub struct NearRoute {
    /// The places that it passes, in order: customers and stations.
    pub places: Vec<usize>,
    /// Its least scaled time.
    pub time: u64,
    /// The weighted time, less what is earned.
    pub reduced: i64,
    /// Whether it serves nobody twice.
    pub is_elementary: bool,
}

/// How a search ended.
#[derive(Clone, Copy, Debug, PartialEq, Eq)]
pub enum SearchEnd {
    /// No label waits, and none was left out since its numbers didn't fit. A table that isn't whole
    /// leaves out what is past its horizon.
    Whole,
    /// Enough routes were found.
    Enough,
    /// The time was up.
    Stopped,
    /// There were too many labels, or the numbers of one didn't fit.
    Full,
}

/// What a search found.
#[derive(Drop)]
pub struct NearFound {
    /// Routes of rising reduced cost.
    pub routes: Vec<NearRoute>,
    pub end: SearchEnd,
    /// How many labels were made.
    pub labels: usize,
}

impl NearRoute {
    /// A route over these places.
    pub(crate) fn new(ground: &Ground, places: Vec<usize>, time: u64, reduced: i64) -> NearRoute {
        let is_elementary = is_elementary(ground, &places);
        NearRoute {
            places,
            time,
            reduced,
            is_elementary,
        }
    }

    /// The customers that it serves, by number and in order.
    pub fn customers(&self, alloc: Global, ground: &Ground) -> Result<Vec<usize>, AllocError> {
        let mut customers = Vec::new(alloc);
        for place in &self.places {
            if ground.is_customer(*place) {
                customers.push(*place)?;
            }
        }
        Ok(customers)
    }
}

/// Whether no customer is passed twice.
fn is_elementary(ground: &Ground, places: &[usize]) -> bool {
    let mut seen = LargeSet::empty();
    for place in places {
        if ground.is_customer(*place) {
            if is_in(seen, *place) {
                return false;
            }
            seen = with(seen, *place);
        }
    }
    true
}
