//! The branching tree of a search for the cheapest plan of a fleet: its open nodes, and its lines.
//!
//! A node is split on two customers: in one child the second may not follow the first, in the other
//! it has to (Ryan and Foster 1981; for routes: Desaulniers, Desrosiers and Solomon 2005).
#![tactic(auto)]

mod laws;
mod node;
mod shape;
mod tree;

pub use laws::{
    a_fleet_keeps_the_pairs_of_a_node, a_tree_of_nodes_is_a_branching_tree,
    leaves_are_under_what_their_nodes_name,
};
pub use node::{Node, NodeState, child_pairs};
pub use tree::Tree;
