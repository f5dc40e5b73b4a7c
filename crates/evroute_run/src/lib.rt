//! What `evroute` does: its words become a job, which is done over any files and any output.
#![tactic(auto)]

mod bound;
mod check;
mod check_bound;
mod check_route;
mod command;
mod convert;
mod fixed;
mod fleet;
mod improve;
mod judging;
mod make;
mod planning;
mod prove;
mod sure;
mod trip;
mod watcher;

pub use command::{Evroute, run};
pub use ev_fleet::{Progress, Watcher};
pub use evroute_causes::Cause;
pub use job_frame::{CauseListener, ScaleWatcher, Status};
pub use mixed_run::{RisingProgress, RoundProgress, RoundWatcher};
pub use ng_pricing::{PriceProgress, PriceWatcher};
pub use route_improve::{MoveProgress, MoveWatcher};
pub use sure::run_surely;
pub use watcher::{JobWatcher, Nobody};
