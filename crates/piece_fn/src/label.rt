//! Labels of partial routes.

use crate::piece_fn::PieceFn;
use customer_sets::CustSet;

/// A partial route, as a search sees it.
#[derive(Drop)]
pub struct Label {
    /// The node of the last customer, or 0 where none was served yet.
    pub last: usize,
    /// The node where the vehicle is.
    pub node: usize,
    /// The customers served.
    pub set: CustSet,
    /// The least time at each battery level on leaving the node.
    pub value: PieceFn,
}
