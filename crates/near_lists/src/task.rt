//! What a list is made for. No clause rests on this.

use crate::sizes::{are_small, is_small_gain};
use instance_reader::Instance;
use near_completion::{Ground, NearTerms};

/// What a list is made for.
#[derive(Drop)]
pub struct ListTask<'a> {
    pub inst: &'a Instance,
    pub ground: &'a Ground,
    /// The weight of time, prices, near sets, and who may come next after whom.
    pub terms: &'a NearTerms,
    /// The prices of entries into the counted sets with which the terms were made, in the order in
    /// which these were counted.
    pub entry_prices: &'a [i64],
}

impl ListTask<'_> {
    /// Whether sums of what a route earns fit.
    pub(crate) fn fits(&self) -> bool {
        if !are_small(self.entry_prices) {
            return false;
        }
        for class in 0..self.terms.classes() {
            if !self.has_small_gains(class) {
                return false;
            }
        }
        true
    }

    /// Whether no customer earns or loses too much after a class.
    fn has_small_gains(&self, class: usize) -> bool {
        for customer in 0..self.terms.customers() {
            if !is_small_gain(self.terms.gain(class, customer)) {
                return false;
            }
        }
        true
    }

    /// Whether nothing that a step earns is below 0.
    pub(crate) fn never_loses(&self) -> bool {
        for class in 0..self.terms.classes() {
            if !self.has_gains(class) {
                return false;
            }
        }
        true
    }

    /// Whether no customer earns less than nothing after a class.
    fn has_gains(&self, class: usize) -> bool {
        for customer in 0..self.terms.customers() {
            if self.terms.gain(class, customer) < 0 {
                return false;
            }
        }
        true
    }
}
