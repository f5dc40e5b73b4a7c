//! Numbers in lists, and numbers in fewer bits. No clause rests on this.

use customer_sets::LargeSet;
use std::alloc::{AllocError, Global};

/// How many numbers a set takes.
const MOST: usize = 448;

/// The number at a place, 0 where there is none.
pub(crate) fn at(numbers: &[i64], place: usize) -> i64 {
    numbers.get(place).copied().unwrap_or(0)
}

/// Puts a number at a place, if there is that place.
pub(crate) fn put(numbers: &mut [i64], place: usize, number: i64) {
    if let Some(own) = numbers.get_mut(place) {
        *own = number;
    }
}

/// A number with a sign, the greatest one at the most.
pub(crate) fn signed(number: u64) -> i64 {
    i64::try_from(number).unwrap_or(i64::MAX)
}

/// A number in fewer bits, or the nearest number that has so few.
pub(crate) fn narrow(number: i128) -> i64 {
    match i64::try_from(number) {
        Ok(narrow) => narrow,
        Err(_) => { if number < 0 { i64::MIN } else { i64::MAX } }
    }
}

/// A quotient, rounded down; 0 where there is none.
pub(crate) fn floor_of(over: i64, under: i64) -> i64 {
    over.checked_div_euclid(under).unwrap_or(0)
}

/// A copy of numbers.
pub(crate) fn copy_of(alloc: Global, numbers: &[i64]) -> Result<Vec<i64>, AllocError> {
    let mut copy = Vec::with_capacity(alloc, numbers.len())?;
    copy.extend_from_slice(numbers)?;
    Ok(copy)
}

/// Whether a customer is in a set; one whose number is too large is in none.
pub(crate) fn is_in(set: LargeSet, customer: usize) -> bool {
    customer < MOST && set.has(customer)
}

/// A set with a customer, if sets take his number.
pub(crate) fn with(set: LargeSet, customer: usize) -> LargeSet {
    if customer < MOST {
        set.with(customer)
    } else {
        set
    }
}
