//! The tree.

ghost use Rattle.std.specs.Prelude.{◌≡◌, ◌↔◌, ◌<◌, ◌≤◌, ℕ, IsNone, IsTrue, IfOk, IfSome, OnErr, OnOk, Some};
ghost use Rattle.customer_sets.specs.Pairs.{allows_of};
ghost use Rattle.bound_certificate.specs.Meaning.{IsTreeOf};
ghost use Rattle.branching.specs.Nodes.{HasNode, IsLeastBound, IsLive, IsNext, IsTaken, node_at, NoneIsLive, NoneIsOpen};
ghost use Rattle.branching.specs.SearchTree.{closed_with, IsBranchPair, IsRoot, IsSearchTree, IsSplitOf, sections_named, with_node};
ghost use Rattle.branching.specs.Work.{work_left};
ghost use Rattle.branching.specs.declared.node.Node.{Node};
ghost use Rattle.branching.specs.declared.node.NodeState.TheVariants.{Taken};

use crate::node::{Node, NodeState, children, is_branch_pair, least_live, next_open};
use crate::shape::{Line, named_lines, split_leaf};
use bound_certificate::TreeLine;
use customer_sets::Pairs;
use slab::Slab;
use std::alloc::{AllocError, Global};
use std::marker::Model;

/// The branching tree of a search for the cheapest plan of a fleet.
///
/// The nodes that are not split are kept in a slab, which gives each its key. Contracts see among
/// how many customers there are pairs, these nodes by key, and the tree, whose leaves name them by
/// their keys.
#[derive(Drop)]
pub struct Tree {
    customers: usize,
    nodes: Slab<Node>,
    shape: Vec<Line>,
}

impl Model for Tree {
    ghost use Rattle.branching.specs.SearchTree.{SearchTree};
    ghost use Rattle.branching.specs.Stored.{IsStored, search_tree_of};

    ghost Value = { SearchTree };

    ghost use Rattle.std.specs.Coded.{codes};
    ghost use Rattle.branching.specs.TreeCode.{tree_code};

    ghost coded = { Prim.hlevel (codes, tree_code) };

    ghost view = { search_tree_of };

    ghost invariant = { IsStored };
}

impl Tree {
    /// A tree of one open node, the root, with the key 0: it has no forbidden pair, bound 0 and
    /// section 0.
    pub fn new(alloc: Global, customers: usize) -> Result<Tree, AllocError>
        requires { customers ≤ 128 }
        ensures root { IfOk result (IsRoot customers) }
        ensures tree { IfOk result IsSearchTree }
    {
        let mut nodes = Slab::new(alloc);
        nodes.reserve(1)?;
        let key = nodes.insert_reserved(Node {
            state: NodeState::Open,
            pairs: Pairs::new(customers),
            section: 0,
            bound: 0,
        });
        let mut shape = Vec::new(alloc);
        shape.push(Line::Leaf { key })?;
        Ok(Tree {
            customers,
            nodes,
            shape,
        })
    }

    /// Marks an open node of least bound as taken, of several that with the least key, and answers
    /// its key. `None` comes exactly where no node is open. It takes no memory, and the time of a
    /// walk over the nodes that are not split.
    pub fn take(&mut self) -> Option<usize>
        ensures none { IsNone result ↔ NoneIsOpen self.old.nodes }
        ensures next { IfSome result (λ key. (node : Node) × IsNext self.old.nodes key node
            × (self.new ≡ with_node self.old key (record node { state = Taken }))) }
        ensures taken { IfSome result (λ key. HasNode self.new.nodes key IsTaken) }
        ensures unchanged { IsNone result → self.new ≡ self.old }
        ensures work { work_left self.new.nodes ≡ work_left self.old.nodes }
    {
        let Some(key) = next_open(&self.nodes) else {
            return None;
        };
        self.nodes[key].state = NodeState::Taken;
        Some(key)
    }

    /// The pairs that are forbidden on the way to an open or taken node. It takes no memory.
    pub fn pairs(&self, key: usize) -> &Pairs
        requires { HasNode self.now.nodes key IsLive }
        ensures value { (node : Node) → node_at self.now.nodes key ≡ Some node →
            result.now ≡ node.pairs }
        ensures customers { result.now.customers ≡ self.now.customers }
        ensures tree { IsSearchTree self.now }
    {
        &self.nodes[key].pairs
    }

    /// The number of the section that the leaf of an open or taken node names. It takes no memory.
    pub fn section(&self, key: usize) -> usize
        requires { HasNode self.now.nodes key IsLive }
        ensures { (node : Node) → node_at self.now.nodes key ≡ Some node →
            result ≡ node.section }
    {
        self.nodes[key].section
    }

    /// The bound of an open or taken node. It takes no memory.
    pub fn bound(&self, key: usize) -> u128
        requires { HasNode self.now.nodes key IsLive }
        ensures { (node : Node) → node_at self.now.nodes key ≡ Some node →
            result ≡ node.bound }
    {
        self.nodes[key].bound
    }

    /// Whether an open or taken node may be split on `i` and `j`: both are places of customers, `j`
    /// may follow `i` under the pairs of the node, and to require it would forbid a further pair.
    /// It takes no memory.
    pub fn can_split(&self, key: usize, i: usize, j: usize) -> bool
        requires { HasNode self.now.nodes key IsLive }
        ensures { (node : Node) → node_at self.now.nodes key ≡ Some node →
            IsTrue result ↔ IsBranchPair self.now.customers (allows_of node.pairs) i j }
    {
        is_branch_pair(&self.nodes[key].pairs, i, j)
    }

    /// Splits a taken node on the customers' places `i` and `j`, and answers the keys of its
    /// children, which are open: in the first `j` may not follow `i`, in the second it has to. The
    /// first takes the key of the node, and the second one that no node has. Both have the section
    /// and the bound until they are given others. After a refusal the tree is as before.
    pub fn split(
        &mut self,
        key: usize,
        i: usize,
        j: usize,
        section: usize,
        bound: u128,
    ) -> Result<(usize, usize), AllocError>
        requires taken { HasNode self.old.nodes key IsTaken }
        requires pair { (node : Node) → node_at self.old.nodes key ≡ Some node →
            IsBranchPair self.old.customers (allows_of node.pairs) i j }
        ensures first { IfOk result (λ keys. keys.0 ≡ key) }
        ensures ok { IfOk result
            (λ keys. IsSplitOf self.old key keys.1 i j section bound self.new) }
        ensures err { OnErr result (self.new ≡ self.old) }
        ensures work { OnOk result (work_left self.new.nodes < work_left self.old.nodes) }
    {
        self.nodes.reserve(1)?;
        let (apart, together) = children(&self.nodes[key], i, j, section, bound);
        let second = self.nodes.vacant_key();
        split_leaf(&mut self.shape, key, i, j, second)?;
        self.nodes.insert_reserved(together);
        self.nodes[key] = apart;
        Ok((key, second))
    }

    /// Closes a taken node, whose leaf names the section from then on. It takes no memory.
    pub fn close(&mut self, key: usize, section: usize)
        requires { HasNode self.old.nodes key IsTaken }
        ensures closed { (node : Node) → node_at self.old.nodes key ≡ Some node →
            self.new ≡ with_node self.old key (closed_with section node) }
        ensures work { work_left self.new.nodes < work_left self.old.nodes }
    {
        let node = &mut self.nodes[key];
        node.state = NodeState::Closed;
        node.section = section;
    }

    /// The least bound of the open and taken nodes. `None` comes exactly where there is none. It
    /// takes no memory, and the time of a walk over the nodes that are not split.
    pub fn least_bound(&self) -> Option<u128>
        ensures none { IsNone result ↔ NoneIsLive self.now.nodes }
        ensures least { IfSome result (IsLeastBound self.now.nodes) }
        ensures tree { IsSearchTree self.now }
    {
        least_live(&self.nodes)
    }

    /// The lines of the tree in preorder. The leaf of each node that is not split, of an open or
    /// taken one too, names the node's section.
    pub fn lines(&self, alloc: Global) -> Result<Vec<TreeLine>, AllocError>
        ensures lines { IfOk result
            (λ lines. IsTreeOf lines.items (sections_named self.now.nodes self.now.tree)) }
        ensures tree { IsSearchTree self.now }
    {
        named_lines(alloc, self.shape.as_slice(), &self.nodes)
    }
}
