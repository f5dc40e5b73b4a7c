//! What broken rules of trees over near sections mean: a sentence for each. What is accepted breaks
//! none.

use near_tree::TreeVerdict;
use plain_words::Sentence;

/// What the broken rule of a tree means.
pub(crate) fn rejected_tree(verdict: TreeVerdict) -> Option<Sentence> {
    match verdict {
        TreeVerdict::Accepted => None,
        TreeVerdict::Start { leaf } => Some(Sentence::one(
            "{CERT}: at leaf {1} no listed label covers a vehicle that starts",
            leaf,
        )),
        TreeVerdict::Step { leaf, label, node } => Some(Sentence::three(
            "{CERT}: at leaf {1} the step from label {2} to node {3} leads to no listed label",
            leaf,
            label,
            node,
        )),
        TreeVerdict::Home { leaf, label } => Some(Sentence::two(
            "{CERT}: at leaf {1} a vehicle comes home from label {2} for less than it has earned",
            leaf,
            label,
        )),
        TreeVerdict::Bound { leaf } => Some(Sentence::one(
            "{CERT}: the sum of leaf {1} over its weight shows less than the bound",
            leaf,
        )),
    }
}
