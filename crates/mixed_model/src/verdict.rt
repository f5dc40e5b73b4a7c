//! What a proof for several kinds of vehicles is found to be.

/// Whether a proof is accepted, or the first rule that it breaks.
///
/// Kinds are judged first, in their order: of each the start, then all steps by label and node,
/// then all steps home by label. Then come the bound and the root. Kinds and labels are counted
/// from 0.
#[derive(Clone, Copy, Debug, PartialEq, Eq)]
pub enum MixedVerdict {
    /// No rule is broken.
    Accepted,
    /// No label of the kind covers the start: the depot with a full battery at time 0, before any
    /// customer.
    Start {
        kind: usize,
    },
    /// A step from a level of the label to the node, a customer or a station, leads to a state that
    /// no label of the kind covers.
    Step {
        kind: usize,
        label: usize,
        node: usize,
    },
    /// A step home from a level of the label takes, times the weight, less than the price sum of
    /// the label's set.
    End {
        kind: usize,
        label: usize,
    },
    /// The bound is above the price sum over the weight, rounded up; or there is none, and the
    /// weight isn't 0, or the price sum isn't above 0.
    Bound,
    /// The root doesn't show what it says of the price sum over the weight.
    Root,
}
