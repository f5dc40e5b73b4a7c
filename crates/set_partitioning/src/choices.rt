//! The candidates by customer, as a search takes them.

ghost use Rattle.std.specs.Prelude.{◌≤◌};

use crate::candidate::Candidate;
use customer_sets::CustSet;
use std::alloc::{AllocError, Global};

/// A candidate that a search may take.
#[derive(Clone, Copy)]
pub(crate) struct Choice {
    /// Its place among the candidates.
    pub(crate) at: usize,
    /// Whom it serves: a binary digit for each customer, by number.
    pub(crate) served: u128,
    pub(crate) excess: i128,
}

/// How many candidates are choices.
const MOST: usize = 4000;

/// For each of so many customers, by number, the candidates that serve him, by rising excess, as
/// far as this is below `room`.
pub(crate) fn choices_by_customer(
    alloc: Global,
    candidates: &[Candidate],
    customers: usize,
    room: i128,
) -> Result<Vec<Vec<Choice>>, AllocError> {
    let choices = choices_below(alloc, candidates, room)?;
    let mut lists = Vec::new(alloc);
    for number in 0..customers {
        lists.push(of_customer(alloc, &choices, number)?)?;
    }
    Ok(lists)
}

/// The candidates by rising excess, as far as this is below `room`.
fn choices_below(
    alloc: Global,
    candidates: &[Candidate],
    room: i128,
) -> Result<Vec<Choice>, AllocError> {
    let mut found = Vec::new(alloc);
    for (at, candidate) in candidates.iter().enumerate() {
        if candidate.excess < room {
            found.push(Choice {
                at,
                served: digits_of(candidate.served),
                excess: candidate.excess,
            })?;
        }
    }
    found.sort_unstable_by_key(|choice| choice.excess);
    found.truncate(MOST);
    Ok(found)
}

/// A binary digit for each customer of the set.
fn digits_of(set: CustSet) -> u128 {
    let mut digits = 0u128;
    for number in 0..128 {
        if set.has(number) {
            digits |= 1 << number;
        }
    }
    digits
}

/// Those of the choices that serve the customer, in their order.
fn of_customer(
    alloc: Global,
    choices: &[Choice],
    number: usize,
) -> Result<Vec<Choice>, AllocError> {
    let mut found = Vec::new(alloc);
    for choice in choices {
        if is_among(choice.served, number) {
            found.push(*choice)?;
        }
    }
    Ok(found)
}

/// Whether the customer with the number is among these.
pub(crate) fn is_among(served: u128, number: usize) -> bool {
    number < 128 && served >> number & 1 == 1
}
