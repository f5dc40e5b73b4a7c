//! The definitions behind lower bounds on the cost of a fleet: labels of partial routes, closed
//! lists of them, branching, and the bases of the master problem.
//!
//! The definitions stand in `specs/`. What stands here are laws that say that they prove what they
//! should, and worked examples, computed from the definitions.
#![tactic(auto)]

mod basis_laws;
mod examples;
mod laws;

pub use basis_laws::{a_basis_has_one_body_equation, a_list_without_a_divisor_pays_least};
pub use examples::{one_station_is_an_exact_root, one_station_is_closed};
pub use laws::{
    a_fleet_costs_the_bound, a_fleet_costs_the_bound_of_a_tree, a_fleet_keeps_some_leaf,
    a_label_covers_by_a_margin, a_plan_pays_its_prices, a_price_sum_is_a_total,
    a_worse_state_is_covered, an_exact_root_is_the_least_cover, closed_where_no_rule_is_broken,
    customers_are_numbered, no_cover_costs_less, no_fleet_keeps_the_pairs,
    paid_sums_may_be_price_sums, the_bound_rounds_up,
};
