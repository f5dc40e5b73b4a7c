//! What a near proof is found to be.

/// Whether a near proof is accepted, or the first rule that it breaks.
///
/// The rules are tried in this order, each over all labels or customers before the next. Labels are
/// counted from 0.
#[derive(Clone, Copy, Debug, PartialEq, Eq)]
pub enum NearVerdict {
    /// No rule is broken.
    Accepted,
    /// No label covers the start: the depot with a full battery at time 0, before any service.
    Start,
    /// A step from a level of the label to the node, a customer or a station, leads to a state that
    /// no label covers.
    Step { label: usize, node: usize },
    /// A step home from a level of the label takes, times the weight, less than the label has
    /// earned.
    End { label: usize },
    /// The bound is a number other than the price sum, or its weight isn't 1; or there is none,
    /// and the weight isn't 0, or no price is above 0, or a tight route is listed.
    Bound,
    /// The customer at the node has no tight route: a near route that serves the customer, and
    /// takes less than what it would earn were the customer's price one higher.
    Tight { customer: usize },
}
