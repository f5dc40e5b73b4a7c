//! What is counted on the way to the trees that are still to be read.

ghost use Rattle.std.specs.Prelude.{◌≡◌, ◌≢◌, ◌≤◌, ◌∷◌, ◌++◌, List, [], IfOk, OnOk, length, nat_lt, ◌||◌, if◌then◌else◌};
ghost use Rattle.near_tree.specs.Branches.{count_of, is_same};
ghost use Rattle.near_tree.specs.Ranges.{most_counted};
ghost use Rattle.near_tree.specs.declared.proof.TreeNode.TheVariants.{Entries};
ghost use Rattle.tree_text.specs.Reading.{is_between, is_counted};
ghost use Rattle.tree_text.specs.Ways.{GoesBelow, HasSmallCount, as_counted, counted_in, left_of};
ghost use Rattle.tree_text.specs.Written.{narrowed};
ghost use Rattle.tree_text.specs.declared.ways.CountedSet.{CountedSet};

use customer_sets::LargeSet;
use ev_list::Listed;
use near_tree::TreeNode;
use std::alloc::{AllocError, Global};

/// The most sets that are counted on the way to a leaf.
const MOST_COUNTED: usize = 64;

/// A set whose entries are counted: there are so many at least, and so many at most.
#[derive(Clone, Copy)]
pub(crate) struct CountedSet {
    pub set: LargeSet,
    pub least: usize,
    pub most: usize,
}

/// Whether that is the counted set.
fn is_set(c: CountedSet, set: LargeSet) -> bool
    ensures { result ≡ is_same c.set set }
{
    c.set == set
}

/// The range of the entries into a set: that of the set where it is counted, else from 1 to its
/// size.
pub(crate) fn range_of(counted: &[CountedSet], set: LargeSet) -> (usize, usize)
    ensures least { result.0 ≡ (count_of (counted_in counted.now) set).least }
    ensures most { result.1 ≡ (count_of (counted_in counted.now) set).most }
{
    for c in counted {
        if is_set(*c, set) {
            return (c.least, c.most);
        }
    }
    (1, set.len())
}

/// Whether some entries into the set are below the count, or at it, and some are above.
pub(crate) fn is_between(counted: &[CountedSet], k: usize, set: LargeSet) -> bool
    ensures { result ≡ is_between (counted_in counted.now) k set }
{
    let (least, most) = range_of(counted, set);
    least <= k && k < most
}

/// Whether the set is counted already.
fn is_counted(counted: &[CountedSet], set: LargeSet) -> bool
    ensures { result ≡ is_counted (counted_in counted.now) set }
{
    for c in counted {
        if is_set(*c, set) {
            return true;
        }
    }
    false
}

/// Whether the set is counted already, or one set more may be.
#[tactic(auto, using(crate::proofs::LeafFits::kept_length))]
pub(crate) fn has_room(counted: &[CountedSet], set: LargeSet) -> bool
    ensures { result ≡ (is_counted (counted_in counted.now) set
        || nat_lt (length (counted_in counted.now)) most_counted) }
{
    is_counted(counted, set) || counted.len() < MOST_COUNTED
}

/// A set with a range, or the other one.
fn one_of(is_first: bool, set: LargeSet, least: usize, most: usize, other: CountedSet) -> CountedSet
    ensures { as_counted result
        ≡ (if is_first then record { set = set; least = least; most = most }
        else as_counted other) }
{
    if is_first {
        CountedSet { set, least, most }
    } else {
        other
    }
}

/// The counted sets, with one of them anew.
pub(crate) fn counted_anew(
    alloc: Global,
    counted: &[CountedSet],
    set: LargeSet,
    least: usize,
    most: usize,
) -> Result<Vec<CountedSet>, AllocError>
    ensures { IfOk result (λ made.
        counted_in made.items ≡ narrowed (counted_in counted.now) set least most) }
{
    let mut made = Vec::new(alloc);
    let mut is_known = false;
    for c in counted {
        let is_same = is_set(*c, set);
        let is_here = is_same && !is_known;
        made.push(one_of(is_here, set, least, most, *c))?;
        is_known = is_known || is_here;
    }
    if !is_known {
        made.push(CountedSet { set, least, most })?;
    }
    Ok(made)
}

/// What is counted on the last of the ways: that to the tree that is read next.
pub(crate) fn top_way(ways: &[Listed<CountedSet>]) -> &[CountedSet]
    requires { ways.now ≢ [] }
    ensures { (rest : List (List CountedSet)) (way : List CountedSet) →
        ways.now ≡ rest ++ way ∷ [] → result.now ≡ way }
{
    ways[ways.len() - 1].as_slice()
}

/// Goes on below a node: its trees are read next, the first before the second. `last` is whether no
/// later tree has the way to the node.
pub(crate) fn open_below(
    alloc: Global,
    ways: &mut Vec<Listed<CountedSet>>,
    lasts: &mut Vec<bool>,
    last: bool,
    node: &TreeNode,
) -> Result<(), AllocError>
    requires top { ways.now.items ≢ [] }
    requires small { HasSmallCount node.now }
    ensures { OnOk result ((rest : List (List CountedSet)) (way : List CountedSet) →
        ways.old.items ≡ rest ++ way ∷ [] →
        GoesBelow last node.now rest way lasts.old.items lasts.new.items ways.new.items) }
{
    match node {
        TreeNode::Split { .. } => {
            lasts.push(last)?;
            lasts.push(false)?;
            Ok(())
        }
        TreeNode::Entries { most, set } => open_entries(alloc, ways, lasts, last, *most, *set),
        TreeNode::Leaf(_) => {
            close_way(ways, last);
            Ok(())
        }
    }
}

/// Lets the last way go, where no later tree has it.
fn close_way(ways: &mut Vec<Listed<CountedSet>>, last: bool)
    ensures { (rest : List (List CountedSet)) (way : List CountedSet) →
        ways.old.items ≡ rest ++ way ∷ [] → ways.new.items ≡ left_of last rest way }
{
    if last {
        ways.pop();
    }
}

/// Goes on below a count.
fn open_entries(
    alloc: Global,
    ways: &mut Vec<Listed<CountedSet>>,
    lasts: &mut Vec<bool>,
    last: bool,
    most: usize,
    set: LargeSet,
) -> Result<(), AllocError>
    requires top { ways.now.items ≢ [] }
    requires small { most ≤ 448 }
    ensures { OnOk result ((rest : List (List CountedSet)) (way : List CountedSet) →
        ways.old.items ≡ rest ++ way ∷ [] →
        GoesBelow last (Entries most set) rest way lasts.old.items lasts.new.items
        ways.new.items) }
{
    let way = top_way(ways.as_slice());
    let (least, greatest) = range_of(way, set);
    let few = counted_anew(alloc, way, set, least, most)?;
    let many = counted_anew(alloc, way, set, most + 1, greatest)?;
    close_way(ways, last);
    ways.push(Listed::from_vec(many))?;
    ways.push(Listed::from_vec(few))?;
    lasts.push(true)?;
    lasts.push(true)?;
    Ok(())
}
