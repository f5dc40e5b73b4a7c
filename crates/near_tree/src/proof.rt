//! Proofs of lower bounds by trees over near routes.

use customer_sets::LargeSet;
use ev_list::Listed;
use piece_fn::PieceFn;

/// A tree over near sections: what shows that no plan of a fleet costs less than a bound, or that
/// there is none.
///
/// Customers are numbered from 0 in rising order of their nodes. Levels are in units of charge;
/// times, prices, what is earned and the bound are scaled by the instance's denominator.
#[derive(Drop)]
pub struct TreeProof {
    /// What no fleet plan costs less than; `None` says that there is no fleet plan.
    pub bound: Option<u128>,
    /// The nodes of the tree, each before its two trees, the first before the second.
    pub nodes: Listed<TreeNode>,
}

/// A node of a tree.
#[derive(Drop)]
pub enum TreeNode {
    /// Whether one customer comes next after another, whatever stations stand between; both by
    /// number. In the first tree `after` doesn't come next after `before`, in the second it has to.
    Split { before: usize, after: usize },
    /// How often routes enter a set of customers: at most `most` times in the first tree, more
    /// often in the second.
    Entries { most: usize, set: LargeSet },
    Leaf(LeafSection),
}

/// What stands at a leaf.
#[derive(Drop)]
pub struct LeafSection {
    /// The weight of a unit of scaled time.
    pub weight: u64,
    /// A price for each customer, by number.
    pub prices: Listed<i128>,
    /// The near set of each customer, by number: whom a vehicle that serves the customer goes on
    /// to remember.
    pub sets: Listed<LargeSet>,
    /// A price for the entries into each set that is counted above the leaf, in the order in which
    /// these were first mentioned.
    pub entry_prices: Listed<i128>,
    pub labels: Listed<SectionLabel>,
}

/// Whom a vehicle served last.
#[derive(Clone, Copy, Debug, PartialEq, Eq)]
pub enum LastServed {
    /// Nobody yet.
    Nobody,
    /// The customer with a number.
    Customer(usize),
    /// That is forgotten.
    Anybody,
}

/// A vehicle about to leave a node on a near route, with a time at each level of its battery.
#[derive(Drop)]
pub struct SectionLabel {
    /// The node where the vehicle is.
    pub node: usize,
    /// Whom it served last: at a customer's node that customer, at a depot that is no station
    /// nobody.
    pub last: LastServed,
    /// The customers that are remembered, who can't be served now.
    pub memory: LargeSet,
    /// What was earned.
    pub earned: i128,
    pub value: PieceFn,
}
