//! Forbidden pairs of places on a route.

ghost use Rattle.std.specs.Prelude.{◌≡◌, ◌↔◌, ◌⊎◌, ◌<◌, ◌≤◌, ◌≢◌, ℕ, IsTrue, true};
ghost use Rattle.customer_sets.specs.Pairs.{allows_of, forbid, is_forbidden, IsDecided, IsDecidedFrom, IsNarrowedBy, IsPairs, require};

use crate::CustSet;
use std::marker::Model;

/// Which places may not follow each other on a route, whatever stations stand between.
///
/// Place 0 is the depot, and place `c + 1` is the customer with the number `c`; there are at most
/// 128 customers. In a pair (i, j) the place `j` follows the place `i`. Contracts see by
/// `allows_of` which pairs are allowed.
#[derive(Clone, Copy, Debug, PartialEq, Eq)]
pub struct Pairs {
    customers: usize,
    /// By place: the customers who may not follow it.
    after: [CustSet; 129],
    /// The customers after whom a route may not end.
    home: CustSet,
}

impl Model for Pairs {
    ghost use Rattle.customer_sets.specs.Pairs.{ForbiddenPairs, IsPairs};

    ghost Value = { ForbiddenPairs };

    ghost view = { λ s. record { customers = s.customers; after = s.after; home = s.home } };

    ghost invariant = { λ s.
        IsPairs (record { customers = s.customers; after = s.after; home = s.home }) };

    ghost inverse = { λ p. record { customers = p.customers; after = p.after; home = p.home } };
}

impl Pairs {
    /// No pair is forbidden, among so many customers. It takes no memory.
    pub fn new(customers: usize) -> Pairs
        requires { customers ≤ 128 }
        ensures customers { result.customers ≡ customers }
        ensures pairs { (a b : ℕ) → allows_of result a b ≡ true }
    {
        Pairs {
            customers,
            after: [CustSet::empty(); 129],
            home: CustSet::empty(),
        }
    }

    /// Among how many customers pairs may be forbidden. It takes no memory.
    pub fn customers(&self) -> usize
        ensures value { result ≡ self.now.customers }
        ensures pairs { IsPairs self.now }
    {
        self.customers
    }

    /// Forbids that the place `j` follows the place `i`. It takes no memory.
    pub fn forbid(&mut self, i: usize, j: usize)
        requires first { i ≤ self.now.customers }
        requires second { j ≤ self.now.customers }
        requires apart { i ≢ j }
        ensures customers { self.new.customers ≡ self.old.customers }
        ensures pairs { (a b : ℕ) → allows_of self.new a b ≡ forbid i j (allows_of self.old) a b }
    {
        match j {
            0 => self.home = self.home.with(i - 1),
            _ => self.after[i] = self.after[i].with(j - 1),
        }
    }

    /// Forbids that another place than `j` follows the customer's place `i`, and that `j`, a
    /// customer's place too, follows another place than `i`. It takes no memory.
    pub fn require(&mut self, i: usize, j: usize)
        requires first { i ≤ self.now.customers }
        requires second { j ≤ self.now.customers }
        requires customers { (0 < i) × (0 < j) }
        requires apart { i ≢ j }
        ensures customers { self.new.customers ≡ self.old.customers }
        ensures pairs { (a b : ℕ) → a ≤ self.old.customers → b ≤ self.old.customers →
            allows_of self.new a b ≡ require i j (allows_of self.old) a b }
    {
        for other in 0..self.customers + 1 {
            self.require_besides(i, j, other);
        }
    }

    /// Forbids the pairs (i, l) and (l, j), where `l` is neither `i` nor `j`.
    fn require_besides(&mut self, i: usize, j: usize, l: usize)
        requires first { i ≤ self.now.customers }
        requires second { j ≤ self.now.customers }
        requires other { l ≤ self.now.customers }
        ensures customers { self.new.customers ≡ self.old.customers }
        ensures same { (l ≡ i) ⊎ (l ≡ j) → self.new ≡ self.old }
        ensures pairs { l ≢ i → l ≢ j → (a b : ℕ) →
            allows_of self.new a b ≡ forbid l j (forbid i l (allows_of self.old)) a b }
    {
        if l != i && l != j {
            self.forbid(i, l);
            self.forbid(l, j);
        }
    }

    /// Whether the place `j` may follow the place `i`; a place may always follow itself. It takes
    /// no memory.
    pub fn allows(&self, i: usize, j: usize) -> bool
        requires first { i ≤ self.now.customers }
        requires second { j ≤ self.now.customers }
        ensures { result ≡ allows_of self.now i j }
    {
        i == j || !self.forbids(i, j)
    }

    fn forbids(&self, i: usize, j: usize) -> bool
        requires first { i ≤ self.now.customers }
        requires second { j ≤ self.now.customers }
        requires apart { i ≢ j }
        ensures { result ≡ is_forbidden self.now i j }
    {
        match j {
            0 => self.home.has(i - 1),
            _ => self.after[i].has(j - 1),
        }
    }

    /// Whether each pair that is forbidden here is forbidden there. It takes no memory.
    pub fn within(&self, other: &Pairs) -> bool
        ensures { IsTrue result ↔
            ((a b : ℕ) → allows_of other.now a b ≡ true → allows_of self.now a b ≡ true) }
    {
        for place in 0..129 {
            if !self.after[place].is_subset(other.after[place]) {
                return false;
            }
        }
        self.home.is_subset(other.home)
    }

    /// Whether nothing is left to branch on: there are no two different customers, of whom the
    /// second may follow the first, so that requiring it would forbid a further pair. It takes no
    /// memory.
    pub fn decided(&self) -> bool
        ensures { IsTrue result ↔ IsDecided self.now }
    {
        for i in 1..self.customers + 1 {
            if !self.decided_from(i) {
                return false;
            }
        }
        true
    }

    fn decided_from(&self, i: usize) -> bool
        requires some { 0 < i }
        requires place { i ≤ self.now.customers }
        ensures { IsTrue result ↔ IsDecidedFrom self.now i }
    {
        for j in 1..self.customers + 1 {
            if i != j && self.allows(i, j) && self.narrowed_by(i, j) {
                return false;
            }
        }
        true
    }

    /// Whether requiring that `j` follows `i` would forbid a further pair.
    fn narrowed_by(&self, i: usize, j: usize) -> bool
        requires first { i ≤ self.now.customers }
        requires second { j ≤ self.now.customers }
        requires apart { i ≢ j }
        ensures { IsTrue result ↔ IsNarrowedBy self.now i j }
    {
        for l in 0..self.customers + 1 {
            if l != i && l != j && (self.allows(i, l) || self.allows(l, j)) {
                return true;
            }
        }
        false
    }
}
