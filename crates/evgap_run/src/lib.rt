//! What `evgap` does: its words become a job, which is done over any files and any output.
#![tactic(auto)]

mod cause;
mod check;
mod clock;
mod command;
mod judging;
mod plan;
mod planning;
mod report;
mod watcher;

pub use cause::Cause;
pub use clock::{AtOnce, JobClock, Never};
pub use command::{Evgap, run};
pub use gap_search::{
    BranchClock, BranchProgress, BranchWatcher, GapClock, GapProgress, GapWatcher, MoveClock,
    MoveProgress, MoveWatcher, PricesProgress, PricesWatcher, RecreateProgress, RecreateWatcher,
    SearchClock,
};
pub use job_frame::{CauseListener, ScaleWatcher, Status};
pub use watcher::{JobWatcher, Nobody};
