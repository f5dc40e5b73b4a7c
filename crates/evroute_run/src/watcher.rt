//! Who watches a long job.

use command_line::Job;
use ev_fleet::{Progress, Watcher};
use evroute_causes::Cause;
use job_frame::{CauseListener, ScaleWatcher};
use mixed_run::{RisingProgress, RoundProgress, RoundWatcher};
use ng_pricing::{PriceProgress, PriceWatcher};
use route_improve::{MoveProgress, MoveWatcher};

/// Who is told how far a search, a bound, an improvement or the rounds of a fleet of several kinds
/// are, by what their times are scaled, and what the first line of an answer tells that isn't the
/// one that was asked for. Neither what is written nor what is put, nor the status, depends on it.
pub trait JobWatcher: Watcher
    + PriceWatcher
    + MoveWatcher
    + RoundWatcher
    + ScaleWatcher
    + CauseListener<Cause> {
    /// Is told which job begins.
    fn watch_job(&mut self, job: &Job);
}

/// Nobody: of what is told the last cause alone is kept.
#[derive(Drop)]
pub struct Nobody {
    cause: Option<Cause>,
}

impl Nobody {
    /// Nothing was heard yet.
    pub fn new() -> Self {
        Nobody { cause: None }
    }
}

impl Watcher for Nobody {
    fn watch(&mut self, _progress: Progress) {}
}

impl PriceWatcher for Nobody {
    fn watch_prices(&mut self, _progress: PriceProgress) {}
}

impl MoveWatcher for Nobody {
    fn watch_moves(&mut self, _progress: MoveProgress) {}
}

impl RoundWatcher for Nobody {
    fn watch_rounds(&mut self, _progress: RoundProgress) {}

    fn watch_rising(&mut self, _progress: RisingProgress) {}
}

impl ScaleWatcher for Nobody {
    fn begin(&mut self, _denominator: u64) {}
}

impl CauseListener<Cause> for Nobody {
    ghost heard = { λ nobody. nobody.cause };

    fn hear(&mut self, cause: Cause) {
        self.cause = Some(cause);
    }
}

impl JobWatcher for Nobody {
    fn watch_job(&mut self, _job: &Job) {}
}
