//! Sets of customers of any instance.

ghost use Rattle.std.specs.Prelude.{◌≡◌, ◌↔◌, ◌+◌, ◌<◌, ◌||◌, ◌&&◌, ℕ, [], IsTrue, filter, length, nat_eq, not, true, false};
ghost use Rattle.std.specs.List.{sum_by};
ghost use Rattle.customer_sets.specs.CustSet.{has, IsWithin, with_customer};
ghost use Rattle.customer_sets.specs.SetBelow.{IsSetBelow};

use std::marker::Model;

/// A set of customers, by their numbers, which are below 448: an instance has at most 399.
///
/// Contracts see the list of its members in rising order.
#[derive(Clone, Copy, Debug, PartialEq, Eq)]
pub struct LargeSet {
    words: [u64; 7],
}

impl Model for LargeSet {
    ghost use Rattle.std.specs.Prelude.{List, ℕ};

    ghost Value = { List ℕ };

    ghost use Rattle.customer_sets.specs.LargeMembers.{AreWords, large_members};
    ghost use Rattle.customer_sets.specs.LargeRestored.{restored_words, restored_words-members};

    ghost view = { λ s. large_members s.words };

    ghost invariant = { λ s. AreWords s.words };

    ghost inverse = { restored_words };

    ghost inverse_ok = { restored_words-members };
}

impl LargeSet {
    /// The set without a member. It takes no memory.
    pub fn empty() -> LargeSet
        ensures { result ≡ [] }
    {
        LargeSet { words: [0; 7] }
    }

    /// Whether the customer is in the set. It takes no memory.
    pub fn has(self, c: usize) -> bool
        requires { c < 448 }
        ensures value { result ≡ has self c }
        ensures set { IsSetBelow 448 self }
    {
        self.words[c / 64] >> (c % 64) & 1 == 1
    }

    /// The set with the customer, who may be in it already. It takes no memory.
    pub fn with(self, c: usize) -> LargeSet
        requires { c < 448 }
        ensures value { result ≡ with_customer c self }
        ensures members { (x : ℕ) → has result x ≡ (nat_eq c x || has self x) }
        ensures old { has self c ≡ true → result ≡ self }
        ensures new { has self c ≡ false → (f : ℕ → ℕ) → sum_by f result ≡ f c + sum_by f self }
    {
        let mut words = self.words;
        words[c / 64] = words[c / 64] | 1 << (c % 64);
        LargeSet { words }
    }

    /// The set without the customer, who may not be in it. It takes no memory.
    pub fn without(self, c: usize) -> LargeSet
        requires { c < 448 }
        ensures value { result ≡ filter (λ x. not (nat_eq x c)) self }
        ensures members { (x : ℕ) → has result x ≡ (has self x && not (nat_eq x c)) }
    {
        let mut words = self.words;
        words[c / 64] = words[c / 64] & !(1 << (c % 64));
        LargeSet { words }
    }

    /// The customers who are in both sets. It takes no memory.
    pub fn common(self, other: LargeSet) -> LargeSet
        ensures value { result ≡ filter (has other) self }
        ensures members { (x : ℕ) → has result x ≡ (has self x && has other x) }
    {
        let mut words = self.words;
        for i in 0..7 {
            words[i] = words[i] & other.words[i];
        }
        LargeSet { words }
    }

    /// Whether each member is in the other set. It takes no memory.
    pub fn is_subset(self, other: LargeSet) -> bool
        ensures { IsTrue result ↔ IsWithin self other }
    {
        for i in 0..7 {
            if self.words[i] & other.words[i] != self.words[i] {
                return false;
            }
        }
        true
    }

    /// How many members there are. It takes no memory.
    pub fn len(self) -> usize
        ensures value { result ≡ length self }
        ensures set { IsSetBelow 448 self }
    {
        let mut count = 0;
        for i in 0..7 {
            count += self.words[i].count_ones() as usize;
        }
        count
    }

    /// Whether there is no member. It takes no memory.
    pub fn is_empty(self) -> bool
        ensures { IsTrue result ↔ (self ≡ []) }
    {
        for i in 0..7 {
            if self.words[i] != 0 {
                return false;
            }
        }
        true
    }
}
