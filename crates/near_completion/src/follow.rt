//! Who may come next after whom. No clause rests on this.

use customer_sets::LargeSet;
use std::alloc::{AllocError, Global};

/// How many numbers a set takes.
pub(crate) const MOST: usize = 448;

/// A set whose entries are counted, and what an entry earns.
#[derive(Clone, Copy)]
pub(crate) struct Counted {
    pub(crate) set: LargeSet,
    pub(crate) price: i64,
}

/// Who may come next after whom, and what entering counted sets earns.
///
/// At first everybody may come next, and home too, but after nobody. The depot is `None`: as the
/// one before who stands for nobody, as the one behind for home. Of a customer that isn't there
/// nothing is changed.
#[derive(Drop)]
pub struct Follow {
    customers: usize,
    /// Who may come next after each customer, by number, himself always among them.
    next: Vec<LargeSet>,
    /// Who may be the first.
    first: LargeSet,
    /// After whom home may come.
    home: LargeSet,
    counted: Vec<Counted>,
    /// Whether nobody is told from a customer, as the one before.
    tells_nobody: bool,
}

impl Follow {
    /// Everybody may come next after everybody, among so many customers.
    pub fn new(alloc: Global, customers: usize) -> Result<Follow, AllocError> {
        let all = everybody(customers);
        Ok(Follow {
            customers,
            next: vec![in alloc; all; customers]?,
            first: all,
            home: all,
            counted: Vec::new(alloc),
            tells_nobody: false,
        })
    }

    /// How many customers there are.
    pub fn customers(&self) -> usize {
        self.customers
    }

    /// Forbids that the second comes next after the first.
    pub fn forbid(&mut self, from: Option<usize>, to: Option<usize>) {
        self.tells_nobody = true;
        match (from, to) {
            (Some(from), Some(to)) => self.forbid_pair(from, to),
            (Some(from), None) => self.home = without(self.home, from),
            (None, Some(to)) => self.first = without(self.first, to),
            (None, None) => {}
        }
    }

    /// Forbids that another one than the second comes next after the first, and that the second
    /// comes next after another one.
    pub fn require(&mut self, from: usize, to: usize) {
        self.tells_nobody = true;
        for other in 0..self.customers {
            if other != to {
                self.forbid_pair(from, other);
            }
            if other != from {
                self.forbid_pair(other, to);
            }
        }
        self.home = without(self.home, from);
        self.first = without(self.first, to);
    }

    /// Forbids that one customer comes next after another one.
    fn forbid_pair(&mut self, from: usize, to: usize) {
        if from != to {
            if let Some(next) = self.next.get_mut(from) {
                *next = without(*next, to);
            }
        }
    }

    /// Lets each entry into a set earn a price.
    pub fn count(&mut self, set: LargeSet, price: i64) -> Result<(), AllocError> {
        self.counted.push(Counted { set, price })?;
        self.tells_nobody = true;
        Ok(())
    }

    /// Whether the second may come next after the first; home never comes after nobody.
    pub fn allows(&self, from: Option<usize>, to: Option<usize>) -> bool {
        match (from, to) {
            (from, Some(to)) => is_in(self.next_of(from), to),
            (Some(from), None) => is_in(self.home, from),
            (None, None) => false,
        }
    }

    /// Who may come next after a customer, or after nobody.
    pub(crate) fn next_of(&self, from: Option<usize>) -> LargeSet {
        match from {
            Some(from) => self.next.get(from).copied().unwrap_or(LargeSet::empty()),
            None => self.first,
        }
    }

    /// Whether vehicles that served nobody are told from others.
    pub(crate) fn tells_nobody(&self) -> bool {
        self.tells_nobody
    }

    /// The sets whose entries are counted.
    pub(crate) fn counted(&self) -> &[Counted] {
        self.counted.as_slice()
    }
}

/// All customers below a number.
pub(crate) fn everybody(customers: usize) -> LargeSet {
    let mut all = LargeSet::empty();
    for customer in 0..customers.min(MOST) {
        all = all.with(customer);
    }
    all
}

/// Whether a customer is in a set; one whose number is too large is in none.
pub(crate) fn is_in(set: LargeSet, customer: usize) -> bool {
    customer < MOST && set.has(customer)
}

/// A set without a customer.
pub(crate) fn without(set: LargeSet, customer: usize) -> LargeSet {
    if customer < MOST {
        set.without(customer)
    } else {
        set
    }
}

/// A set with a customer, if sets take his number.
pub(crate) fn with(set: LargeSet, customer: usize) -> LargeSet {
    if customer < MOST {
        set.with(customer)
    } else {
        set
    }
}
