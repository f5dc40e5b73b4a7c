//! How much is searched at the most. No clause rests on this.

use near_search::{Aim, Comparison, Order};

/// How much work a search for prices does beside its rounds, in labels; making a table counts as
/// some.
#[derive(Clone, Copy, Debug, PartialEq, Eq)]
pub struct PriceEffort {
    /// So many before the clock is asked for the first time.
    pub first: usize,
    /// So many at the most to close prices where rounds were stopped, unless the clock is up.
    pub closing: usize,
    /// So many to raise them then, at the least and at the most; a third of the work of the rounds
    /// in between.
    pub raising: (usize, usize),
}

impl PriceEffort {
    /// That where time doesn't press: the clock is asked at once.
    pub fn usual() -> PriceEffort {
        PriceEffort {
            first: 0,
            closing: 4_000_000,
            raising: (500_000, 10_000_000),
        }
    }
}

/// How many labels may be made.
#[derive(Clone, Copy)]
pub(crate) struct Budget {
    labels: usize,
}

impl Budget {
    /// So many labels.
    pub(crate) fn of(labels: usize) -> Budget {
        Budget { labels }
    }

    /// Most of it, and the rest.
    pub(crate) fn parted(&self) -> (Budget, Budget) {
        let rest = self.labels / 4;
        let most = self.labels.saturating_sub(rest);
        (Budget { labels: most }, Budget { labels: rest })
    }

    /// Takes labels out that were made, or other work, in labels.
    pub(crate) fn spend(&mut self, labels: usize) {
        self.labels = self.labels.saturating_sub(labels);
    }

    /// Takes out all that are left, since the time is up.
    pub(crate) fn end(&mut self) {
        self.labels = 0;
    }

    /// How many are left.
    pub(crate) fn left(&self) -> usize {
        self.labels
    }

    /// Whether none is left.
    pub(crate) fn is_spent(&self) -> bool {
        self.labels == 0
    }
}

/// The aim of a search for routes that earn.
pub(crate) fn aim_of(comparison: Comparison, most_routes: usize, most_labels: usize) -> Aim {
    Aim {
        comparison,
        order: order_of(comparison),
        slack: 0,
        most_routes,
        most_labels,
    }
}

/// In which order labels are taken.
fn order_of(comparison: Comparison) -> Order {
    match comparison {
        Comparison::Exact => Order::ByTime,
        _ => Order::ByBound,
    }
}
