//! Plans of one vehicle and of a fleet, the routes that they follow, and their texts.
#![tactic(auto)]

mod feasible;
mod laws;
mod plan;
mod route;
mod text;
mod walking;
mod walks;

pub use ev_model::Stop;
pub use feasible::a_feasible_plan_fits_a_text;
pub use laws::{
    feasible_plans_are_walked, route_word_faults_are_first, unbroken_nodes_are_routes,
    words_spell_routes,
};
pub use plan::{FleetPlan, FracPlan, RoutePlan};
pub use route::{RouteFault, read_route};
pub use text::{
    PlanText, fleet_plan_faults_are_first, plan_faults_are_first, push_fleet_plan, push_plan,
    read_fleet_plan, read_plan, take_stops, texts_spell_plans, write_stops,
};
pub use walking::walk;
pub use walks::{Walk, WalkFault};
