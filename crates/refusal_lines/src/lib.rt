//! The lines that programs put in place of an answer: of a refusal, and of a fleet plan that breaks
//! a rule.
#![tactic(auto)]

mod plan;
mod refusal;

pub use plan::push_rejected_plan;
pub use refusal::{Refusal, push_refusal};
