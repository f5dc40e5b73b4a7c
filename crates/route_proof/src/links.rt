//! Labels found by how much of the route was passed and by their node.

ghost use Rattle.std.specs.Prelude.{◌≡◌};
ghost use Rattle.route_proof.specs.Links.{key_of};

use crate::RouteLabel;
use dominance::LabelValue;
use label_index::{Entry, Indexing, in_order};
use piece_fn::PieceFn;
use std::alloc::{AllocError, Global};

/// One number for how much of the route was passed and for a node. It takes no memory.
pub(crate) fn key_of(nodes: usize, passed: usize, node: usize) -> u128
    ensures { result ≡ key_of nodes passed node }
{
    passed as u128 * nodes as u128 + node as u128
}

/// The key of a label is that of its place, and nothing else is kept of it.
#[derive(Drop)]
pub(crate) struct ByPlace {
    /// How many nodes there are.
    pub(crate) nodes: usize,
}

impl Indexing<RouteLabel, ()> for ByPlace {
    ghost use Rattle.route_proof.specs.Links.{keeps_nothing, label_key, points_of};

    ghost key_of = { λ s. label_key s.nodes };

    ghost value_of = { points_of };

    ghost keeps = { λ _. keeps_nothing };

    ghost can_keep = { λ _. Unit {0} };

    fn key(&self, label: &RouteLabel) -> u128 {
        key_of(self.nodes, label.passed, label.node)
    }

    fn value<'b>(&self, label: &'b RouteLabel) -> &'b PieceFn {
        &label.value
    }

    fn rest(&self, _label: &RouteLabel) {}
}

/// The entries of the labels that have a level, each with its time there: keys rise, and for each
/// key times rise. What is answered never rests on them, so little is said of them.
pub(crate) fn entries_at(
    alloc: Global,
    nodes: usize,
    level: u64,
    labels: &[RouteLabel],
) -> Result<Vec<Entry<()>>, AllocError> {
    let mut entries = Vec::new(alloc);
    for (number, label) in labels.iter().enumerate() {
        if let Some(time) = label.value.at(level) {
            entries.push(Entry {
                key: key_of(nodes, label.passed, label.node),
                time,
                number,
                rest: (),
            })?;
        }
    }
    in_order(entries)
}
