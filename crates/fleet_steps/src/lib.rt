//! The steps of jobs on fleets: an instance without too many customers, the plan of a file and what
//! it costs; the line of a plan that breaks a rule, and the file of one that breaks none.
#![tactic(auto)]

mod answering;
mod instance;
mod reading;

pub use answering::{PlanCause, plan_text, reject};
pub use instance::fleet_instance;
pub use reading::{cost_of, plan_of};
