//! Who watches a search for a close gap.

use near_branch::BranchWatcher;
use route_improve::MoveWatcher;
use ruin_recreate::RecreateWatcher;

/// How far apart a plan and a bound are, both scaled as times are.
#[derive(Clone, Copy, Debug, PartialEq, Eq)]
pub struct GapProgress {
    /// What the plan that is held costs.
    pub cost: u128,
    /// The bound, where it is known already.
    pub bound: Option<u128>,
}

/// Who is told how far a search for a close gap is. Nothing is promised of it, and neither plan nor
/// proof depends on it.
pub trait GapWatcher: MoveWatcher + BranchWatcher + RecreateWatcher {
    /// Is told what is held, once behind each plan that was made.
    fn watch_gap(&mut self, progress: GapProgress);
}
