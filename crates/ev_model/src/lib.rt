//! The definitions of the problem: networks, plans, feasible plans, and fastest plans.
//!
//! The definitions stand in `specs/`. What stands here is the record of a stop, laws that say that
//! the definitions mean what they should, and the worked examples, computed from the definitions.
#![tactic(auto)]

mod examples;
mod laws;

pub use examples::{
    infeasible_plans, least_levels, no_station, one_station, plugging_in_takes_time, two_customers,
    two_stations,
};
pub use laws::{
    charge_time_in_ones, charge_time_is_linear, charge_time_never_falls, plan_visits_its_route,
    stops_cut_in_two,
};

/// A stop of a plan.
///
/// `node` is the node's number. `added` is the amount charged there, in units of charge (in kths of
/// a unit in a plan in kths). `via` tells that the stop was inserted and isn't part of the route.
#[derive(Clone, Copy, Debug, PartialEq, Eq)]
pub struct Stop {
    pub node: usize,
    pub added: u64,
    pub via: bool,
}
