//! The nodes of a tree in the making. No clause rests on this.

use crate::fork::{Fork, Turn};
use crate::prices::{LeafPrices, Worth};
use near_tree::LeafSection;
use std::alloc::{AllocError, Global};

/// What a node is.
#[derive(Clone, Copy, Debug, PartialEq, Eq)]
pub(crate) enum Standing {
    /// A leaf that may be split.
    Open,
    /// A leaf at which nothing is known to split on.
    Stuck,
    /// It is split, and its two nodes stand at these places.
    Forked {
        fork: Fork,
        first: usize,
        second: usize,
    },
}

/// A closed list, and what its prices bound.
#[derive(Drop)]
pub(crate) struct Listing {
    pub(crate) section: LeafSection,
    pub(crate) worth: Worth,
}

/// A node.
#[derive(Drop)]
pub(crate) struct Node {
    /// The place of the node above, and the turn from there; `None` at the root.
    pub(crate) above: Option<(usize, Turn)>,
    pub(crate) standing: Standing,
    pub(crate) prices: LeafPrices,
    /// Its list, if it is made.
    pub(crate) listing: Option<Listing>,
}

impl Node {
    /// Whether it isn't split.
    pub(crate) fn is_leaf(&self) -> bool {
        match self.standing {
            Standing::Open | Standing::Stuck => true,
            Standing::Forked { .. } => false,
        }
    }
}

/// The turns from the root to a node.
pub(crate) fn turns_to(
    alloc: Global,
    nodes: &[Node],
    place: usize,
) -> Result<Vec<Turn>, AllocError> {
    let mut turns = Vec::new(alloc);
    let mut at = place;
    for _ in 0..nodes.len() {
        let Some((above, turn)) = nodes.get(at).and_then(|node| node.above) else {
            break;
        };
        turns.push(turn)?;
        at = above;
    }
    turns.reverse();
    Ok(turns)
}
