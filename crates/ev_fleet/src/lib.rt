//! The search for the cheapest plan of a fleet by branch and price, best bound first (Land, Doig
//! 1960; for routes: Desaulniers, Desrosiers, Solomon 2005).
#![tactic(auto)]

mod answer;
mod candidates;
mod greedy;
mod held;
mod kept;
mod moved;
mod outcome;
mod own;
mod pair;
mod partition;
mod search;
mod section_bound;
mod shares;
mod state;
mod strong;
mod taking;
mod watcher;

pub use outcome::Outcome;
pub use search::{plan_fleet, plan_fleet_watched};
pub use watcher::{Progress, Watcher};
