//! Sets of customers.
#![tactic(auto)]

ghost use Rattle.std.specs.Prelude.{◌≡◌, ◌↔◌, ◌+◌, ◌<◌, ◌^◌, ◌||◌, ◌&&◌, ℕ, [], IsTrue, filter, length, nat_eq, not, true, false};
ghost use Rattle.std.specs.List.{sum_by};
ghost use Rattle.customer_sets.specs.CustSet.{has, IsCustomerSet, IsWithin, with_customer};

mod large_set;
mod pairs;

pub use large_set::LargeSet;
pub use pairs::Pairs;
use std::marker::Model;

/// A set of customers, by their numbers, which are below 128.
///
/// Contracts see the list of its members in rising order.
#[derive(Clone, Copy, Debug, PartialEq, Eq)]
pub struct CustSet {
    bits: u128,
}

impl Model for CustSet {
    ghost use Rattle.std.specs.Prelude.{List, ℕ, ◌<◌, ◌^◌};

    ghost Value = { List ℕ };

    ghost use Rattle.customer_sets.specs.Members.{members};
    ghost use Rattle.customer_sets.specs.Restored.{restored, restored-members};

    ghost view = { λ s. members s.bits };

    ghost invariant = { λ s. s.bits < 2 ^ 128 };

    ghost inverse = { restored };

    ghost inverse_ok = { restored-members };
}

impl CustSet {
    /// The set without a member. It takes no memory.
    pub fn empty() -> CustSet
        ensures { result ≡ [] }
    {
        CustSet { bits: 0 }
    }

    /// Whether the customer is in the set. It takes no memory.
    pub fn has(self, c: usize) -> bool
        requires { c < 128 }
        ensures value { result ≡ has self c }
        ensures set { IsCustomerSet self }
    {
        self.bits >> c & 1 == 1
    }

    /// The set with the customer, who may be in it already. It takes no memory.
    pub fn with(self, c: usize) -> CustSet
        requires { c < 128 }
        ensures value { result ≡ with_customer c self }
        ensures members { (x : ℕ) → has result x ≡ (nat_eq c x || has self x) }
        ensures old { has self c ≡ true → result ≡ self }
        ensures new { has self c ≡ false → (f : ℕ → ℕ) → sum_by f result ≡ f c + sum_by f self }
    {
        CustSet {
            bits: self.bits | 1 << c,
        }
    }

    /// The set without the customer, who may not be in it. It takes no memory.
    pub fn without(self, c: usize) -> CustSet
        requires { c < 128 }
        ensures value { result ≡ filter (λ x. not (nat_eq x c)) self }
        ensures members { (x : ℕ) → has result x ≡ (has self x && not (nat_eq x c)) }
    {
        CustSet {
            bits: self.bits & !(1 << c),
        }
    }

    /// The customers who are in both sets. It takes no memory.
    pub fn common(self, other: CustSet) -> CustSet
        ensures value { result ≡ filter (has other) self }
        ensures members { (x : ℕ) → has result x ≡ (has self x && has other x) }
    {
        CustSet {
            bits: self.bits & other.bits,
        }
    }

    /// Whether each member is in the other set. It takes no memory.
    pub fn is_subset(self, other: CustSet) -> bool
        ensures { IsTrue result ↔ IsWithin self other }
    {
        self.bits & other.bits == self.bits
    }

    /// How many members there are. It takes no memory.
    pub fn len(self) -> usize
        ensures value { result ≡ length self }
        ensures set { IsCustomerSet self }
    {
        self.bits.count_ones() as usize
    }

    /// Whether there is no member. It takes no memory.
    pub fn is_empty(self) -> bool
        ensures { IsTrue result ↔ (self ≡ []) }
    {
        self.bits == 0
    }
}
