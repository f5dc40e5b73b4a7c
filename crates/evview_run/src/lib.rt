//! What `evview` does: its words become a job, which is done over any files and any output.
#![tactic(auto)]

mod asking;
mod cause;
mod command;
mod held;
mod judging;
mod showing;
mod view;

pub use cause::Cause;
pub use command::{Evview, run};
pub use held::HeldPlans;
pub use job_frame::{CauseListener, Status};
