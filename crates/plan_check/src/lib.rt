//! The judge of fleet plans.
#![tactic(auto)]

mod fault;
mod has_stops;
mod judge;
mod later;
mod laws;
mod tally;

pub use fault::{LargeFault, PlanFault};
pub use has_stops::HasStops;
pub use judge::{check_fleet, check_large};
pub use later::{fault_behind_walks, stray_stop};
pub use laws::{fleet_plans_break_no_rule, later_rules_ask_for_each_customer_once};
