//! What a tree is grown for, and what was found. No clause rests on this.

use customer_sets::LargeSet;
use near_prices::KnownRoute;
use near_tree::TreeProof;

/// What a tree is grown for.
#[derive(Drop)]
pub struct BranchQuestion {
    /// The routes of the plan that is held; none where no plan is held.
    pub plan: Vec<KnownRoute>,
    /// What that plan costs, in scaled time; `None` where no plan is held.
    pub cost: Option<u128>,
    /// Other routes that are known.
    pub seen: Vec<KnownRoute>,
    /// The near sets to begin with, by customer (those of the root's prices); where one isn't told,
    /// the nearest.
    pub near: Vec<LargeSet>,
    /// So many nodes are priced at the most.
    pub nodes: u64,
}

/// What was found. Nothing is promised of it.
#[derive(Drop)]
pub struct Branched {
    /// A tree that may be accepted, and whose bound is at most the cost of the plan that is held
    /// (or of the cheaper one below).
    pub proof: Option<TreeProof>,
    /// Routes of a cheaper plan that was found, if one was: no two serve the same customer.
    pub plan: Option<Vec<KnownRoute>>,
    /// Nodes that were priced.
    pub nodes: u64,
}
