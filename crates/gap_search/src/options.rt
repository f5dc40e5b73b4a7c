//! How a plan and a bound are sought.

use crate::recreation::Recreation;

/// How a plan and a bound are sought.
#[derive(Clone, Copy, Debug, Drop, PartialEq, Eq)]
pub struct GapOptions {
    /// How the first plan is sought.
    pub recreation: Recreation,
    /// So many nodes of a tree are priced at the most, which is grown where a gap is left without
    /// it. `None`: none is grown.
    pub nodes: Option<u64>,
    /// Whether the clock may end the moves that make the plan cheaper in the end.
    pub ends_moves: bool,
}
