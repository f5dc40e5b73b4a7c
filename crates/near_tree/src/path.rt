//! The way from the top of a tree down to a node.

ghost use Rattle.std.specs.Prelude.{◌≡◌, ◌+◌, IfOk, nat_eq};
ghost use Rattle.near_tree.specs.Paths.{GoesOn, permits_all, permits_at, turn_node};

use crate::TreeNode;
use std::alloc::AllocError;

/// A node on the way that is no leaf, and whether the way goes on into its second tree.
#[derive(Clone, Copy)]
pub(crate) struct Turn<'a> {
    pub(crate) node: &'a TreeNode,
    pub(crate) second: bool,
}

/// From a leaf on to the next tree: the second one of the last node on the way whose first the way
/// went into. Whether there is one.
pub(crate) fn go_on(path: &mut Vec<Turn<'_>>) -> Result<bool, AllocError>
    ensures { IfOk result (GoesOn path.old.items path.new.items) }
{
    while let Some(turn) = path.pop() {
        if !turn.second {
            path.push(Turn {
                node: turn.node,
                second: true,
            })?;
            return Ok(true);
        }
    }
    Ok(false)
}

/// Whether no split on the way forbids that one place follows another.
pub(crate) fn permits(path: &[Turn<'_>], before: usize, next: usize) -> bool
    ensures { result ≡ permits_all path.now before next }
{
    for turn in path {
        if !permits_at(turn, before, next) {
            return false;
        }
    }
    true
}

/// Whether one node on the way doesn't forbid it.
fn permits_at(turn: &Turn<'_>, before: usize, next: usize) -> bool
    ensures { result ≡ permits_at (turn_node turn.now) turn.now.second before next }
{
    match turn.node {
        TreeNode::Split {
            before: first,
            after,
        } => {
            let from = is_place(before, *first);
            let to = is_place(next, *after);
            if turn.second {
                before == next || (!(from && !to) && !(to && !from))
            } else {
                !(from && to)
            }
        }
        TreeNode::Entries { most: _, set: _ } => true,
        TreeNode::Leaf(_) => true,
    }
}

/// Whether a place is that of a customer.
fn is_place(place: usize, customer: usize) -> bool
    ensures { result ≡ nat_eq place (customer + 1) }
{
    place > 0 && place - 1 == customer
}
