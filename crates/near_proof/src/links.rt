//! Labels found by their node.

use crate::NearLabel;
use label_index::Indexing;
use piece_fn::PieceFn;

/// The key of a label is its node, and nothing else is kept of it.
#[derive(Drop)]
pub(crate) struct ByNode;

impl Indexing<NearLabel, ()> for ByNode {
    ghost use Rattle.near_proof.specs.Links.{keeps_nothing, node_of, points_of};

    ghost key_of = { λ _. node_of };

    ghost value_of = { points_of };

    ghost keeps = { λ _. keeps_nothing };

    ghost can_keep = { λ _. Unit {0} };

    fn key(&self, label: &NearLabel) -> u128 {
        label.node as u128
    }

    fn value<'b>(&self, label: &'b NearLabel) -> &'b PieceFn {
        &label.value
    }

    fn rest(&self, _label: &NearLabel) {}
}
