//! What it costs to serve customers in an order: the least times of routes, each charged only as far
//! as it may matter, and remembered.
#![tactic(auto)]

mod charging;
mod known;
mod pricer;

pub use charging::fastest_plan;
pub use pricer::Pricer;
