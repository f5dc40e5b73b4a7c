//! The schedule of a fleet plan: for each route its visits, with times and levels of the battery,
//! the line that the level follows over time, and totals.
//!
//! Each number is that of the walk along the plan, by the definitions of the problem. Scaled times
//! are times multiplied by the denominator of the instance; levels and energies are in units of
//! charge.
#![tactic(auto)]

mod laws;
mod line;
mod plan;
mod schedule;
mod totals;
mod visits;

pub use laws::{levels_are_those_of_the_plan, plan_times_are_costs, times_are_those_of_the_plan};
pub use plan::{only_route, schedule_plan};
pub use schedule::{Corner, PlaceKind, RouteSchedule, Schedule, Totals, Visit};
