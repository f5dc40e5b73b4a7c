//! The texts of plans of fleets of several kinds of vehicles.

mod laws;
mod reading;
mod writing;

pub use laws::{mixed_plan_faults_are_first, texts_spell_mixed_plans};
pub use reading::read_mixed_plan;
pub use writing::push_mixed_plan;
