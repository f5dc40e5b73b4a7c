//! What a tree is found to be.

/// Whether a tree is accepted, or the first rule that it breaks.
///
/// Leaves are counted from 0 in the order of their nodes, and labels from 0 within their leaf. The
/// rules of the labels are tried leaf by leaf, and then the bounds.
#[derive(Clone, Copy, Debug, PartialEq, Eq)]
pub enum TreeVerdict {
    /// No rule is broken.
    Accepted,
    /// No label of the leaf covers the start: the depot with a full battery at time 0, before any
    /// customer.
    Start {
        leaf: usize,
    },
    /// A step from a level of the label to the node, a customer or a station, leads to a state that
    /// no label of the leaf covers.
    Step {
        leaf: usize,
        label: usize,
        node: usize,
    },
    /// A step home from a level of the label takes, times the weight, less than the label has
    /// earned.
    Home {
        leaf: usize,
        label: usize,
    },
    /// The bound of the leaf, its sum over its weight, is less than the tree's.
    Bound {
        leaf: usize,
    },
}
