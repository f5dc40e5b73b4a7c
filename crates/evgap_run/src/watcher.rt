//! Who watches a search and hears why an answer isn't the one that was asked for: nobody.

use crate::cause::Cause;
use gap_search::{
    BranchProgress, BranchWatcher, GapProgress, GapWatcher, MoveProgress, MoveWatcher,
    PricesProgress, PricesWatcher, RecreateProgress, RecreateWatcher,
};
use job_frame::{CauseListener, ScaleWatcher};

/// Who is told how far a search is, by what its times are scaled, and what the first line of an
/// answer tells that isn't the one that was asked for. Neither the status nor what is true of what
/// is written and put depends on it.
pub trait JobWatcher: GapWatcher + ScaleWatcher + CauseListener<Cause> {}

/// Nobody: of what is told the last cause alone is kept.
#[derive(Drop)]
pub struct Nobody {
    cause: Option<Cause>,
}

impl Nobody {
    /// Nothing was heard yet.
    pub fn new() -> Self {
        Nobody { cause: None }
    }
}

impl PricesWatcher for Nobody {
    fn watch_prices(&mut self, _progress: PricesProgress) {}
}

impl BranchWatcher for Nobody {
    fn watch_branch(&mut self, _progress: BranchProgress) {}
}

impl MoveWatcher for Nobody {
    fn watch_moves(&mut self, _progress: MoveProgress) {}
}

impl RecreateWatcher for Nobody {
    fn goes_on(&mut self, _progress: RecreateProgress) -> bool {
        true
    }
}

impl GapWatcher for Nobody {
    fn watch_gap(&mut self, _progress: GapProgress) {}
}

impl ScaleWatcher for Nobody {
    fn begin(&mut self, _denominator: u64) {}
}

impl CauseListener<Cause> for Nobody {
    ghost heard = { λ nobody. nobody.cause };

    fn hear(&mut self, cause: Cause) {
        self.cause = Some(cause);
    }
}

impl JobWatcher for Nobody {}
