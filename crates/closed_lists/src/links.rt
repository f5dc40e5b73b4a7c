//! Labels found by their last customer's node and their node.

ghost use Rattle.std.specs.Prelude.{◌≡◌};
ghost use Rattle.closed_lists.specs.Links.{key_of};

use crate::paid::price_sum;
use customer_sets::CustSet;
use label_index::Indexing;
use piece_fn::{Label, PieceFn};

/// What is kept of a label beside its key and its time.
#[derive(Clone, Copy, Debug)]
pub(crate) struct Kept {
    /// The customers served.
    pub(crate) set: CustSet,
    /// The price sum of its set.
    pub(crate) paid: i128,
}

/// One number for a last customer's node and a node. It takes no memory.
pub(crate) fn key_of(nodes: usize, last: usize, node: usize) -> u128
    ensures { result ≡ key_of nodes last node }
{
    last as u128 * nodes as u128 + node as u128
}

/// The key of a label is that of its nodes, and its set is kept with what it has paid.
#[derive(Drop)]
pub(crate) struct ByNodes<'a> {
    /// How many nodes there are.
    pub(crate) nodes: usize,
    /// The prices, by customer number.
    pub(crate) prices: &'a [i128],
}

impl Indexing<Label, Kept> for ByNodes<'_> {
    ghost use Rattle.closed_lists.specs.Links.{CanPay, IsKept, label_key, points_of};

    ghost key_of = { λ s. label_key s.nodes };

    ghost value_of = { points_of };

    ghost keeps = { λ s. IsKept s.prices.now };

    ghost can_keep = { λ s. CanPay s.prices.now };

    fn key(&self, label: &Label) -> u128 {
        key_of(self.nodes, label.last, label.node)
    }

    fn value<'b>(&self, label: &'b Label) -> &'b PieceFn {
        &label.value
    }

    fn rest(&self, label: &Label) -> Kept {
        Kept {
            set: label.set,
            paid: price_sum(self.prices, label.set),
        }
    }
}
