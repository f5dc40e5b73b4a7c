//! The texts of plans and of fleet plans.

mod laws;
mod plan_text;
mod reading;
mod writing;

pub use laws::{fleet_plan_faults_are_first, plan_faults_are_first, texts_spell_plans};
pub use plan_text::PlanText;
pub use reading::{read_fleet_plan, read_plan, take_stops};
pub use writing::{push_fleet_plan, push_plan, write_stops};
