//! Fleet plans by ruin and recreate (slack induction by string removals: Christiaens, Vanden Berghe
//! 2020): strings of customers are taken out of routes and put back where that costs least, each
//! order charged below a bar, and now and then a dearer plan is gone on from.
#![tactic(auto)]

mod acceptance;
mod answer;
mod chance;
mod charger;
mod choice;
mod costs;
mod cycle;
mod effort;
mod fleet;
mod gaps;
mod ground;
mod insertion;
mod memo;
mod near;
mod plans;
mod point;
mod ruin;
mod search;
mod seen;
mod stations;
mod toll;
mod tours;

pub use answer::{Recreated, SeenRoute, recreate};
pub use effort::{Effort, GoOn, RecreateProgress, RecreateWatcher};
