//! What a certificate is found to be.

/// Whether a certificate is accepted, or the first rule that it breaks.
///
/// Sections are judged first, in their order: in each the start, then all steps by label and node,
/// then all steps home by label. Then come the leaves of the tree in preorder, in each its pairs
/// and then its bound; and then the root. Sections, labels and leaves are counted from 0.
#[derive(Clone, Copy, Debug, PartialEq, Eq)]
pub enum Verdict {
    /// No rule is broken.
    Accepted,
    /// No label of the section covers the start: the depot with a full battery at time 0, before
    /// any customer.
    Start {
        section: usize,
    },
    /// A step from a level of the label to the node, a customer or a station, leads to a state that
    /// no label of the section covers.
    Step {
        section: usize,
        label: usize,
        node: usize,
    },
    /// A step home from a level of the label takes, times the section's weight, less than the price
    /// sum of the label's set.
    End {
        section: usize,
        label: usize,
    },
    /// The leaf names a section that forbids a pair which the leaf allows.
    Pairs {
        leaf: usize,
    },
    /// The leaf names a section whose bound is below that of the certificate; or the certificate
    /// says that there is no plan, and the section doesn't.
    Bound {
        leaf: usize,
    },
    /// Section 0 forbids a pair, or the root doesn't show what it says of the bound of section 0.
    Root,
}
