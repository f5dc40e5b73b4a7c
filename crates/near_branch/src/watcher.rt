//! Who watches a tree grow. No clause rests on this.

use near_prices::PricesWatcher;

/// How far a tree has grown.
#[derive(Clone, Copy, Debug, PartialEq, Eq)]
pub struct BranchProgress {
    /// Nodes that were priced.
    pub nodes: u64,
    /// Leaves whose bound is below the cost of the plan that is held.
    pub open: u64,
    /// What no plan costs less than, as far as is known, in scaled time.
    pub bound: i128,
    /// What the plan that is held costs, if there is one.
    pub cost: Option<u128>,
}

/// Who is told how far a tree has grown. Nothing is promised of it, and what is found doesn't
/// depend on it.
pub trait BranchWatcher: PricesWatcher {
    /// Is told how far the tree has grown, once behind each node.
    fn watch_branch(&mut self, progress: BranchProgress);
}
