//! Laws of trees. Each is the contract of an empty function.

ghost use Rattle.std.specs.Prelude.{◌≡◌, ℕ, List, Option, slice_get, Some};
ghost use Rattle.customer_sets.specs.Pairs.{allows_of, any_pair};
ghost use Rattle.ev_model.specs.Fleet.{IsFleetPlan};
ghost use Rattle.ev_model.specs.Network.{Network};
ghost use Rattle.ev_model.specs.declared.Stop.{Stop};
ghost use Rattle.fleet_model.specs.Pairs.{FleetKeepsPairs};
ghost use Rattle.fleet_model.specs.Places.{customer_count};
ghost use Rattle.fleet_model.specs.Section.{Section};
ghost use Rattle.fleet_model.specs.Tree.{IsBranchTree, IsUnder, KeepsSomeLeaf, LeavesAreUnder};
ghost use Rattle.branching.specs.Nodes.{HasNode, node_at};
ghost use Rattle.branching.specs.SearchTree.{IsSearchTree, SearchTree, sections_named};
ghost use Rattle.branching.specs.declared.node.Node.{Node};

use fleet_model::a_fleet_keeps_some_leaf;

/// Every fleet plan, in any fraction of a unit, keeps the pairs of some node that is not split.
pub fn a_fleet_keeps_the_pairs_of_a_node()
    ensures { (g : Network) (t : SearchTree) (k : ℕ) (plans : List (List Stop)) → IsSearchTree t →
        t.customers ≡ customer_count g → IsFleetPlan g k plans →
        (key : ℕ) × HasNode t.nodes key (λ node. FleetKeepsPairs g (allows_of node.pairs) plans) }
{
    a_fleet_keeps_some_leaf();
}

/// Over as many customers as there are, the tree whose leaves name the sections of the nodes is a
/// branching tree, and every fleet plan, in any fraction of a unit, keeps the pairs forbidden on
/// the way to some leaf of it.
pub fn a_tree_of_nodes_is_a_branching_tree()
    ensures tree { (g : Network) (t : SearchTree) → IsSearchTree t →
        t.customers ≡ customer_count g → IsBranchTree g (sections_named t.nodes t.tree) }
    ensures leaf { (g : Network) (t : SearchTree) (k : ℕ) (plans : List (List Stop)) →
        IsSearchTree t → t.customers ≡ customer_count g → IsFleetPlan g k plans →
        KeepsSomeLeaf g any_pair (sections_named t.nodes t.tree) plans }
{
    a_fleet_keeps_some_leaf();
}

/// Where each node names a section that holds under the pairs of the node, each leaf of the tree
/// names a section that holds under the leaf.
pub fn leaves_are_under_what_their_nodes_name()
    ensures { (t : SearchTree) (sections : List Section) (bound : Option ℕ) → IsSearchTree t →
        ((key : ℕ) (node : Node) → node_at t.nodes key ≡ Some node →
        (s : Section) × (slice_get sections node.section ≡ Some s)
        × IsUnder (allows_of node.pairs) s bound) →
        LeavesAreUnder sections bound any_pair (sections_named t.nodes t.tree) }
{}
