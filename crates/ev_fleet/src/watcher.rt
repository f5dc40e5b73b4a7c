//! Who watches a search.

/// How far a search is behind a node.
#[derive(Clone, Copy, Debug, PartialEq, Eq)]
pub struct Progress {
    /// Of how many nodes the bound was found.
    pub nodes: u64,
    /// How many nodes are open.
    pub open_nodes: u64,
    /// The least scaled bound of the open nodes; `None` where there is none.
    pub bound: Option<u128>,
    /// The scaled cost of the plan that is held, if one is.
    pub cost: Option<u128>,
}

/// Who is told how far a search is. Nothing is promised of it, and the answer of the search doesn't
/// depend on it.
pub trait Watcher {
    /// Is told how far the search is, once behind each node whose bound was found.
    fn watch(&mut self, progress: Progress);
}

/// Nobody.
#[derive(Drop)]
pub(crate) struct Nobody {}

impl Watcher for Nobody {
    fn watch(&mut self, _progress: Progress) {}
}
