//! Choosing candidates, each with the customers whom it serves and an excess, that serve each
//! customer once (set partitioning: Balas, Padberg 1976); and the routes of a plan in rising order
//! of their first customers.
#![tactic(auto)]

mod answer;
mod candidate;
mod choices;
mod judge;
mod order;
mod search;

pub use answer::find_partition;
pub use candidate::{Candidate, room_below};
pub use order::sort_by_first;
