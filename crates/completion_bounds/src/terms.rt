//! What ways home are judged by.

use customer_sets::CustSet;
use instance_reader::{Instance, MOST_CUSTOMERS};

/// Who may be served where on a route.
#[derive(Drop)]
pub struct Turns {
    /// Who may be the first.
    pub first: CustSet,
    /// Who may be the next behind each customer, by number.
    pub next: Vec<CustSet>,
    /// Who may be the last.
    pub last: CustSet,
}

/// What ways home are judged by. Customers are told by their numbers, by which the slices go.
#[derive(Clone, Copy)]
pub struct Terms<'a> {
    pub inst: &'a Instance,
    /// The weight of a unit of scaled time.
    pub weight: u64,
    /// What serving each customer earns.
    pub prices: &'a [i128],
    /// Whom a vehicle that serves the customer goes on to remember: they aren't served next.
    pub sets: &'a [CustSet],
    /// `None` where everybody may be served anywhere.
    pub turns: Option<&'a Turns>,
    /// The last scaled time at which a route can earn.
    pub horizon: u64,
    /// About how many layers the table has, or twice as many where arcs take little time.
    pub layers: u64,
}

impl Terms<'_> {
    /// What serving a customer earns.
    pub(crate) fn price(&self, customer: usize) -> i128 {
        self.prices.get(customer).copied().unwrap_or(0)
    }

    /// Whether a vehicle that serves one customer goes on to remember another one.
    pub(crate) fn remembers(&self, customer: usize, other: usize) -> bool {
        is_in(self.sets.get(customer), other)
    }

    /// Whether a customer may be the next behind another one, or behind the depot.
    pub(crate) fn may_follow(&self, last: Option<usize>, customer: usize) -> bool {
        let Some(turns) = self.turns else {
            return true;
        };
        match last {
            Some(last) => is_in(turns.next.as_slice().get(last), customer),
            None => is_in(Some(&turns.first), customer),
        }
    }

    /// Whether a customer may be the last.
    pub(crate) fn may_end(&self, customer: usize) -> bool {
        match self.turns {
            Some(turns) => is_in(Some(&turns.last), customer),
            None => true,
        }
    }
}

/// Whether there is a set that has a customer.
pub(crate) fn is_in(set: Option<&CustSet>, customer: usize) -> bool {
    match set {
        Some(set) => customer < MOST_CUSTOMERS && set.has(customer),
        None => false,
    }
}
