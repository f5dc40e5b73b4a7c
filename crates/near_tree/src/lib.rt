//! Trees over near sections: lower bounds on the cost of a fleet by near routes, on which customers
//! are forgotten, branched on who follows whom and on how often routes enter a set of customers.
//!
//! The definitions stand in `specs/`. What stands here are laws that say that they prove what they
//! should, worked examples, computed from the definitions, the value of a tree, and its judge.
#![tactic(auto)]

mod bound;
mod check;
mod counted;
mod coverage;
mod ends;
mod examples;
mod faults;
mod judge;
mod laws;
mod links;
mod looking;
mod paid;
mod path;
mod proof;
mod site;
mod steps;
mod verdict;
mod zero;

pub use check::check_tree;
pub use examples::{
    a_leaf_of_weight_0_shows_that_no_plan_goes_there, an_entry_price_may_be_below_0,
    anybody_stands_in_at_a_station, the_depot_may_be_a_station,
};
pub use laws::{
    a_fleet_costs_the_bound_of_a_near_tree, a_fleet_costs_the_bound_of_its_leaf,
    a_fleet_goes_to_some_leaf, a_list_of_nodes_is_one_tree, a_near_proof_is_a_tree_of_one_leaf,
    a_near_route_pays_at_a_leaf, a_tree_has_one_verdict, an_accepted_tree_breaks_no_rule,
    who_stands_for_whom,
};
pub use proof::{LastServed, LeafSection, SectionLabel, TreeNode, TreeProof};
pub use verdict::TreeVerdict;
pub use zero::zero_tree;
