//! The nodes of the tree that are not split.

ghost use Rattle.std.specs.Prelude.{◌≡◌, ◌↔◌, ◌≢◌, ◌<◌, ◌≤◌, ℕ, IsNone, IsTrue, IfSome};
ghost use Rattle.customer_sets.specs.Pairs.{allows_of, forbid, IsNarrowedBy, IsPairs, require};
ghost use Rattle.branching.specs.Nodes.{awaits, IsLeastBound, IsNext, lives, NoneIsLive, NoneIsOpen};
ghost use Rattle.branching.specs.SearchTree.{AreChildren, IsBranchPair};
ghost use Rattle.branching.specs.Walk.{first_of, IsFirst, is_wanted, precedes};
ghost use Rattle.branching.specs.declared.node.Node.{Node};
ghost use Rattle.branching.specs.declared.node.NodeState.TheVariants.{Open};

use customer_sets::Pairs;
use slab::Slab;

/// How far the search has come with a node.
#[derive(Clone, Copy, Debug, PartialEq, Eq)]
pub enum NodeState {
    /// It waits to be taken.
    Open,
    /// It was taken, and is neither split nor closed yet.
    Taken,
    /// Nothing is left to be done with it.
    Closed,
}

/// A node that is not split: a leaf of the tree.
#[derive(Clone, Copy, Debug, PartialEq, Eq)]
pub struct Node {
    pub state: NodeState,
    /// The pairs of places that are forbidden on the way to it.
    pub pairs: Pairs,
    /// The number of the section that its leaf names.
    pub section: usize,
    /// What no fleet plan that keeps the pairs costs less than, as the caller has it.
    pub bound: u128,
}

impl Node {
    fn is_open(&self) -> bool
        ensures { result ≡ awaits self.now.state }
    {
        match self.state {
            NodeState::Open => true,
            NodeState::Taken | NodeState::Closed => false,
        }
    }

    fn is_live(&self) -> bool
        ensures { result ≡ lives self.now.state }
    {
        match self.state {
            NodeState::Open | NodeState::Taken => true,
            NodeState::Closed => false,
        }
    }
}

/// The key of the open node of least bound, of several the least key. `None` comes exactly where no
/// node is open.
pub(crate) fn next_open(nodes: &Slab<Node>) -> Option<usize>
    ensures none { IsNone result ↔ NoneIsOpen nodes.now.slots }
    ensures next { IfSome result (λ key. (node : Node) × IsNext nodes.now.slots key node) }
{
    match first_node(nodes, false) {
        Some((key, _)) => Some(key),
        None => None,
    }
}

/// The least bound of the open and taken nodes. `None` comes exactly where there is none.
pub(crate) fn least_live(nodes: &Slab<Node>) -> Option<u128>
    ensures none { IsNone result ↔ NoneIsLive nodes.now.slots }
    ensures least { IfSome result (IsLeastBound nodes.now.slots) }
{
    match first_node(nodes, true) {
        Some((_, bound)) => Some(bound),
        None => None,
    }
}

/// The key and the bound of the open node of least bound, of several of that of the least key; of
/// the open and the taken ones where the taken ones count too.
fn first_node(nodes: &Slab<Node>, taken_too: bool) -> Option<(usize, u128)>
    ensures { IsFirst nodes.now.slots taken_too result }
{
    let mut first = None;
    for (key, node) in nodes.iter() {
        first = first_of(first, key, node, taken_too);
    }
    first
}

/// The key and the bound of the first node among those so far and another one.
fn first_of(
    first: Option<(usize, u128)>,
    key: usize,
    node: &Node,
    taken_too: bool,
) -> Option<(usize, u128)>
    ensures { result ≡ first_of taken_too first key node.now }
{
    if !is_wanted(node, taken_too) {
        return first;
    }
    match first {
        Some((before, bound)) if precedes((before, bound), key, node.bound) => first,
        _ => Some((key, node.bound)),
    }
}

/// Whether the node is open, or, where the taken ones count too, open or taken.
fn is_wanted(node: &Node, taken_too: bool) -> bool
    ensures { result ≡ is_wanted taken_too node.now }
{
    if taken_too {
        node.is_live()
    } else {
        node.is_open()
    }
}

/// Whether a key and a bound come before others: by the bound, and by the key where the bounds are
/// equal.
fn precedes(first: (usize, u128), key: usize, bound: u128) -> bool
    ensures { result ≡ precedes first key bound }
{
    first.1 < bound || first.1 == bound && first.0 <= key
}

/// Whether `i` and `j` are places of customers, `j` may follow `i`, and to require it would forbid
/// a further pair.
pub(crate) fn is_branch_pair(pairs: &Pairs, i: usize, j: usize) -> bool
    ensures { IsTrue result ↔ IsBranchPair pairs.now.customers (allows_of pairs.now) i j }
{
    let customers = pairs.customers();
    if i == 0 || customers < i || j == 0 || customers < j || i == j {
        return false;
    }
    pairs.allows(i, j) && is_narrowed(pairs, i, j)
}

/// Whether requiring that `j` follows `i` would forbid a further pair.
fn is_narrowed(pairs: &Pairs, i: usize, j: usize) -> bool
    requires first { i ≤ pairs.now.customers }
    requires second { j ≤ pairs.now.customers }
    requires apart { i ≢ j }
    ensures { IsTrue result ↔ IsNarrowedBy pairs.now i j }
{
    for other in 0..pairs.customers() + 1 {
        if other != i && other != j && (pairs.allows(i, other) || pairs.allows(other, j)) {
            return true;
        }
    }
    false
}

/// The children of a node that is split on `i` and `j`: that in which `j` may not follow `i`, and
/// that in which it has to.
pub(crate) fn children(node: &Node, i: usize, j: usize, section: usize, bound: u128) -> (Node, Node)
    requires first { (0 < i) × (i ≤ node.now.pairs.customers) }
    requires second { (0 < j) × (j ≤ node.now.pairs.customers) }
    requires apart { i ≢ j }
    ensures children { AreChildren node.now i j section bound result.0 result.1 }
    ensures pairs { IsPairs result.1.pairs }
{
    let (apart, together) = child_pairs(&node.pairs, i, j);
    let _customers = together.customers();
    (
        open_node(apart, section, bound),
        open_node(together, section, bound),
    )
}

/// The pairs of the children that `Tree::split` makes of a node with these pairs: in the first `j`
/// may not follow `i`, in the second it has to. It takes no memory.
pub fn child_pairs(pairs: &Pairs, i: usize, j: usize) -> (Pairs, Pairs)
    requires first { (0 < i) × (i ≤ pairs.now.customers) }
    requires second { (0 < j) × (j ≤ pairs.now.customers) }
    requires apart { i ≢ j }
    ensures customers { (result.0.customers ≡ pairs.now.customers)
        × (result.1.customers ≡ pairs.now.customers) }
    ensures forbids { (a b : ℕ) →
        allows_of result.0 a b ≡ forbid i j (allows_of pairs.now) a b }
    ensures demands { (a b : ℕ) → a ≤ pairs.now.customers → b ≤ pairs.now.customers →
        allows_of result.1 a b ≡ require i j (allows_of pairs.now) a b }
{
    let mut apart = *pairs;
    apart.forbid(i, j);
    let mut together = *pairs;
    together.require(i, j);
    (apart, together)
}

fn open_node(pairs: Pairs, section: usize, bound: u128) -> Node
    ensures { result ≡ record { state = Open; pairs = pairs; section = section; bound = bound } }
{
    Node {
        state: NodeState::Open,
        pairs,
        section,
        bound,
    }
}
