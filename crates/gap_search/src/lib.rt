//! A fleet plan and a close bound on what fleet plans cost, with a proof of it, for up to 399
//! customers.
//!
//! The bound is by near routes (the ng-route relaxation: Baldacci, Mingozzi, Roberti 2011). What a
//! search finds is judged here, and nothing is promised of the search itself.
#![tactic(auto)]

mod bound;
mod candidate;
mod choosing;
mod clock;
mod closing;
mod first;
mod grown;
mod judged;
mod offers;
mod options;
mod outcome;
mod own;
mod plans;
mod recreation;
mod settling;
mod trips;
mod watcher;

pub use candidate::proof_of_candidates;
pub use clock::GapClock;
pub use closing::close_gap;
pub use near_branch::{BranchClock, BranchProgress, BranchWatcher};
pub use near_prices::{PricesProgress, PricesWatcher};
pub use near_search::SearchClock;
pub use options::GapOptions;
pub use outcome::GapOutcome;
pub use recreation::Recreation;
pub use route_improve::{Improved, MoveClock, MoveProgress, MoveWatcher};
pub use ruin_recreate::{RecreateProgress, RecreateWatcher};
pub use tree_text::BoundProof;
pub use watcher::{GapProgress, GapWatcher};
