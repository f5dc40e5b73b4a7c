//! The sets whose entries are counted on the way to a node.

ghost use Rattle.std.specs.Prelude.{◌≡◌, ◌<◌, IfOk, OnOk, map, All};
ghost use Rattle.near_tree.specs.Branches.{is_same};
ghost use Rattle.near_tree.specs.Counting.{counted_as, counted_by, find_same, HasSmallCount, IsSmallCount, narrow_to};
ghost use Rattle.near_tree.specs.Paths.{IsPath, branch_at, turn_node};
ghost use Rattle.near_tree.specs.Preorder.{at_entries};
ghost use Rattle.ev_model.specs.Network.{Network};
ghost use Rattle.fleet_model.specs.Places.{customer_count};

use crate::TreeNode;
use crate::path::Turn;
use customer_sets::LargeSet;
use std::alloc::{AllocError, Global};

/// A set whose entries are counted: there are so many at least, and so many at most.
#[derive(Clone, Copy)]
pub(crate) struct CountedSet {
    pub(crate) set: LargeSet,
    pub(crate) least: usize,
    pub(crate) most: usize,
}

/// The sets that are counted on the way, in the order of their first mention.
pub(crate) fn counted_along(alloc: Global, path: &[Turn<'_>]) -> Result<Vec<CountedSet>, AllocError>
    requires { (g : Network) × (customer_count g < 448) × IsPath g path.now }
    ensures value { IfOk result (λ counted.
        map counted_as counted.items ≡ (branch_at path.now).counted) }
    ensures small { IfOk result (λ counted. All IsSmallCount counted.items) }
{
    let mut counted = Vec::new(alloc);
    for turn in path {
        narrow(&mut counted, turn)?;
    }
    Ok(counted)
}

/// With what one node on the way says.
fn narrow(counted: &mut Vec<CountedSet>, turn: &Turn<'_>) -> Result<(), AllocError>
    requires { HasSmallCount (turn_node turn.now) }
    ensures { OnOk result (map counted_as counted.new.items
        ≡ counted_by (turn_node turn.now) turn.now.second (map counted_as counted.old.items)) }
{
    match turn.node {
        TreeNode::Entries { most, set } => narrow_set(counted, *set, *most, turn.second),
        TreeNode::Split {
            before: _,
            after: _,
        } => Ok(()),
        TreeNode::Leaf(_) => Ok(()),
    }
}

/// With at most so many entries into a set, or more.
fn narrow_set(
    counted: &mut Vec<CountedSet>,
    set: LargeSet,
    count: usize,
    more: bool,
) -> Result<(), AllocError>
    requires { count < 448 }
    ensures { OnOk result (map counted_as counted.new.items
        ≡ counted_by (at_entries count set) more (map counted_as counted.old.items)) }
{
    match place_of(counted, set) {
        Some(at) => {
            counted[at] = narrowed(counted[at], count, more);
            Ok(())
        }
        None => {
            let whole = CountedSet {
                set,
                least: 1,
                most: set.len(),
            };
            counted.push(narrowed(whole, count, more))?;
            Ok(())
        }
    }
}

/// A counted set with at most so many entries, or more.
fn narrowed(counted: CountedSet, count: usize, more: bool) -> CountedSet
    requires { count < 448 }
    ensures { counted_as result ≡ narrow_to (counted_as counted) count more }
{
    if more {
        CountedSet {
            set: counted.set,
            least: count + 1,
            most: counted.most,
        }
    } else {
        CountedSet {
            set: counted.set,
            least: counted.least,
            most: count,
        }
    }
}

/// Where a set is counted.
fn place_of(counted: &[CountedSet], set: LargeSet) -> Option<usize>
    ensures { result ≡ find_same 0 counted.now set }
{
    for (at, other) in counted.iter().enumerate() {
        if is_same(other.set, set) {
            return Some(at);
        }
    }
    None
}

/// Whether two sets are one.
fn is_same(one: LargeSet, other: LargeSet) -> bool
    ensures { result ≡ is_same one other }
{
    if one.len() != other.len() {
        return false;
    }
    if !one.is_subset(other) {
        return false;
    }
    other.is_subset(one)
}
