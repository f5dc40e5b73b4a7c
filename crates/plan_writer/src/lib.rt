//! The texts that `evroute` puts: reports on plans, and with them the lines of refusals.
#![tactic(auto)]

mod check;
mod fixed;
mod fleet;
mod make;

pub use check::{Judgement, push_check_report};
pub use fixed::push_fixed;
pub use fleet::{Outcomes, RootLine, push_fleet_report};
pub use make::push_make_report;
pub use refusal_lines::{Refusal, push_refusal};
