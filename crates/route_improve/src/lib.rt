//! Fleet plans that are made cheaper by moves of single customers until none helps, or a clock ends
//! that.
#![tactic(auto)]

mod begin;
mod clock;
mod finish;
mod improving;
mod moves;
mod own;
mod pass;
mod report;
mod route;
mod savings;
mod settling;
mod watcher;
mod within;

pub use clock::{Endless, MoveClock};
pub use improving::{Improved, improve, improve_timed, improve_watched};
pub use plan_check::{LargeFault, check_large};
pub use report::{push_alone, push_improved};
pub use watcher::{MoveProgress, MoveWatcher, Nobody};
pub use within::{improve_timed_within, improve_within};
