//! Amounts in units of 2^-32, and members of sets. No clause rests on this.

use customer_sets::LargeSet;

/// One.
pub(crate) const ONE: i64 = 1 << 32;

/// A half.
pub(crate) const HALF: i64 = 1 << 31;

/// How many numbers a set takes.
const MOST: usize = 448;

/// The whole part of an amount.
pub(crate) fn whole(amount: i64) -> i64 {
    amount >> 32
}

/// What an amount is beyond its whole part.
pub(crate) fn fraction(amount: i64) -> i64 {
    amount & (ONE - 1)
}

/// A set with a customer, if sets take his number.
pub(crate) fn with(set: LargeSet, customer: usize) -> LargeSet {
    if customer < MOST {
        set.with(customer)
    } else {
        set
    }
}
