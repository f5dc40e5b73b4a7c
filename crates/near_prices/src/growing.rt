//! Near sets that grow where routes of an optimum serve customers again (as Roberti, Mingozzi 2014
//! let them). No clause rests on this.

use crate::numbers::{is_in, with};
use customer_sets::LargeSet;
use near_completion::NearTerms;

/// A set with more customers grows no more.
const MOST_NEAR: usize = 13;

/// Lets the customers between two services of another one remember him from then on, for each pair
/// of services of a route between which nobody is served twice. How many sets grow.
pub(crate) fn grow(terms: &mut NearTerms, order: &[usize]) -> usize {
    let mut grown: usize = 0;
    for (first, customer) in order.iter().enumerate() {
        let behind = order.get(first.saturating_add(1)..).unwrap_or(&[]);
        let Some(between) = cycle_in(behind, *customer) else {
            continue;
        };
        if may_grow(terms, between, *customer) {
            grown = grown.saturating_add(grow_all(terms, between, *customer));
        }
    }
    grown
}

/// The customers before the next service of a customer, if there is one and nobody among them is
/// served twice.
fn cycle_in(behind: &[usize], customer: usize) -> Option<&[usize]> {
    let mut seen = LargeSet::empty();
    for (place, other) in behind.iter().enumerate() {
        if *other == customer {
            return behind.get(..place);
        }
        if is_in(seen, *other) {
            return None;
        }
        seen = with(seen, *other);
    }
    None
}

/// Whether all sets may grow that have to.
fn may_grow(terms: &NearTerms, between: &[usize], customer: usize) -> bool {
    for other in between {
        let set = terms.near(*other);
        if !is_in(set, customer) && set.len() > MOST_NEAR {
            return false;
        }
    }
    true
}

/// Puts a customer into the near sets of others. How many grow.
fn grow_all(terms: &mut NearTerms, others: &[usize], customer: usize) -> usize {
    let mut grown: usize = 0;
    for other in others {
        let set = terms.near(*other);
        if !is_in(set, customer) {
            terms.set_near(*other, with(set, customer));
            grown = grown.saturating_add(1);
        }
    }
    grown
}
