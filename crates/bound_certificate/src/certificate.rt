//! Certificates: what shows that no plan of a fleet costs less than a bound.

use certificate_parts::BasisEntry;
use customer_sets::Pairs;
use ev_list::Listed;
use piece_fn::Label;
use route_plan::RoutePlan;

/// A lower bound on the cost of every fleet plan of an instance, with what shows it.
///
/// Times and costs are scaled. Customers are numbered from 0 in rising order of their nodes. A
/// place is 0 for the depot and one more than the number of a customer.
#[derive(Drop)]
pub struct Certificate {
    /// What no fleet plan costs less than; `None` says that there is no fleet plan.
    pub bound: Option<u128>,
    /// What shows that the bound of section 0 is the least cost of a fractional cover.
    pub root: Root,
    /// The sections that the leaves of the tree name, by their numbers from 0.
    pub sections: Listed<Section>,
    /// The lines of the branching tree in preorder: behind a split stands the tree that forbids its
    /// pair, and then the tree that requires it.
    pub tree: Listed<TreeLine>,
}

/// Prices for customers, a weight for time, and labels that show that no route which keeps the
/// pairs earns more than it takes.
#[derive(Drop)]
pub struct Section {
    pub weight: u64,
    /// A price for each customer, by number.
    pub prices: Listed<i128>,
    /// The forbidden pairs of places.
    pub pairs: Pairs,
    pub labels: Listed<Label>,
}

/// What shows that the bound of section 0 is the linear optimum, or that it may not be.
#[derive(Drop)]
pub enum Root {
    /// There is no fractional cover.
    None,
    /// Each customer is covered exactly once by routes with shares, at the bound of section 0: a
    /// share is that of its number over `over`.
    Exact {
        over: u64,
        shares: Listed<Share>,
    },
    /// The numbers of a basis of the master problem over these columns are too wide to go on.
    Wide {
        columns: Listed<RoutePlan>,
        basis: Listed<BasisEntry>,
    },
}

/// A route with its share.
#[derive(Drop)]
pub struct Share {
    pub share: u64,
    pub plan: RoutePlan,
}

/// A line of a branching tree.
#[derive(Clone, Copy, Debug, PartialEq, Eq)]
pub enum TreeLine {
    /// Whether the place `j` follows the place `i`; both are places of customers.
    Split { i: usize, j: usize },
    /// A leaf, with the number of its section.
    Leaf { section: usize },
}
