//! Vehicles on near routes. No clause rests on this.

use customer_sets::LargeSet;
use piece_fn::PieceFn;

/// How many numbers a set takes.
const MOST: usize = 448;

/// A vehicle about to leave a place on a near route, with a time at each level of its battery.
#[derive(Drop)]
pub struct NearState {
    /// The place where it is.
    pub place: usize,
    /// The class of whom it served last.
    pub class: usize,
    /// Who is remembered.
    pub memory: LargeSet,
    /// The memory in a word, by [`fold`].
    pub folded: u64,
    /// What it earned.
    pub earned: i64,
    pub value: PieceFn,
}

/// A set in a word: a customer has the bit of his number modulo 64. The word of a set has all bits
/// of the word of a set within it.
pub fn fold(set: LargeSet, customers: usize) -> u64 {
    let mut word = 0;
    for customer in 0..customers.min(MOST) {
        if set.has(customer) {
            word |= bit(customer);
        }
    }
    word
}

/// The bit of a customer in a word.
pub(crate) fn bit(customer: usize) -> u64 {
    1 << (customer % 64)
}

/// Whether a customer is in a set; one whose number is too large is in none.
pub(crate) fn is_in(set: LargeSet, customer: usize) -> bool {
    customer < MOST && set.has(customer)
}

/// A set with a customer, if sets take his number.
pub(crate) fn with(set: LargeSet, customer: usize) -> LargeSet {
    if customer < MOST {
        set.with(customer)
    } else {
        set
    }
}
