//! Labels found by their node.

use crate::SectionLabel;
use label_index::Indexing;
use piece_fn::PieceFn;

/// The key of a label is its node, and nothing else is kept of it.
#[derive(Drop)]
pub(crate) struct ByNode;

impl Indexing<SectionLabel, ()> for ByNode {
    ghost use Rattle.near_tree.specs.Links.{keeps_nothing, label_node, points_of};

    ghost key_of = { λ _. label_node };

    ghost value_of = { points_of };

    ghost keeps = { λ _. keeps_nothing };

    ghost can_keep = { λ _. Unit {0} };

    fn key(&self, label: &SectionLabel) -> u128 {
        label.node as u128
    }

    fn value<'b>(&self, label: &'b SectionLabel) -> &'b PieceFn {
        &label.value
    }

    fn rest(&self, _label: &SectionLabel) {}
}
