//! What people are told of bounds on the cost of fleet plans: what the broken rules of their proofs
//! mean, and which customer no vehicle reaches, where there is no plan. No word of it is promised.
#![tactic(auto)]

mod near;
mod reach;

pub use near::rejected_near;
pub use reach::{out_of_reach, told_reach};
