//! The tree of what has grown. No clause rests on this.

use crate::growth::Growth;
use crate::node::{Node, Standing};
use crate::prices::Worth;
use ev_list::Listed;
use near_lists::ListPlan;
use near_tree::{TreeNode, TreeProof};
use std::alloc::{AllocError, Global};

impl Growth<'_> {
    /// The tree of what has grown. Lists are made for the leaves that have none; where none is
    /// found, the node above is a leaf.
    pub(crate) fn proof(
        &mut self,
        alloc: Global,
        plan: &ListPlan,
    ) -> Result<Option<TreeProof>, AllocError> {
        for _ in 0..self.nodes.len() {
            let order = preorder(alloc, &self.nodes)?;
            match self.list_all(alloc, &order, plan)? {
                None => return Ok(Some(self.assembled(alloc, &order)?)),
                Some(place) => {
                    if !self.cut_above(place) {
                        return Ok(None);
                    }
                }
            }
        }
        Ok(None)
    }

    /// Makes the lists of the leaves among these nodes that have none. The first one where none is
    /// found.
    fn list_all(
        &mut self,
        alloc: Global,
        order: &[usize],
        plan: &ListPlan,
    ) -> Result<Option<usize>, AllocError> {
        let target = self.worth().rank();
        for place in order {
            if self.lacks_list(*place) && !self.list(alloc, *place, target, plan)? {
                return Ok(Some(*place));
            }
        }
        Ok(None)
    }

    /// Whether a node is a leaf without a list.
    fn lacks_list(&self, place: usize) -> bool {
        match self.nodes.get(place) {
            Some(node) => node.is_leaf() && node.listing.is_none(),
            None => false,
        }
    }

    /// Lets the node above a node be a leaf. Whether there is one.
    fn cut_above(&mut self, place: usize) -> bool {
        let Some((above, _)) = self.nodes.get(place).and_then(|node| node.above) else {
            return false;
        };
        self.give_up(above);
        true
    }

    /// The tree of these nodes, each before those below it.
    fn assembled(&mut self, alloc: Global, order: &[usize]) -> Result<TreeProof, AllocError> {
        let mut nodes = Vec::with_capacity(alloc, order.len())?;
        let mut worth = Worth::NoPlan;
        for place in order {
            let Some(node) = self.nodes.get_mut(*place) else {
                continue;
            };
            if let Standing::Forked { fork, .. } = node.standing {
                nodes.push(fork.node())?;
            } else if let Some(listing) = node.listing.take() {
                let crate::node::Listing {
                    section,
                    worth: own,
                } = listing;
                if own.rank() < worth.rank() {
                    worth = own;
                }
                nodes.push(TreeNode::Leaf(section))?;
            }
        }
        Ok(TreeProof {
            bound: self.bound_of(worth),
            nodes: Listed::from_vec(nodes),
        })
    }

    /// The bound of a tree whose leaves are worth so much, no more than the cost of the plan that
    /// is held.
    fn bound_of(&self, worth: Worth) -> Option<u128> {
        match (worth, self.held.cost) {
            (Worth::Cost(own), Some(cost)) => Some(own.min(cost)),
            (Worth::Cost(own), None) => Some(own),
            (Worth::NoPlan, cost) => cost,
        }
    }
}

/// The places of the nodes from the root, each before those below it, the first side first.
fn preorder(alloc: Global, nodes: &[Node]) -> Result<Vec<usize>, AllocError> {
    let mut order = Vec::with_capacity(alloc, nodes.len())?;
    let mut waiting = Vec::new(alloc);
    waiting.push(0)?;
    for _ in 0..nodes.len() {
        let Some(place) = waiting.pop() else {
            break;
        };
        order.push(place)?;
        if let Some(Standing::Forked { first, second, .. }) = standing_at(nodes, place) {
            waiting.push(second)?;
            waiting.push(first)?;
        }
    }
    Ok(order)
}

/// What the node at a place is.
fn standing_at(nodes: &[Node], place: usize) -> Option<Standing> {
    nodes.get(place).map(|node| node.standing)
}
