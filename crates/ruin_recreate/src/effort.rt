//! How much a search does, and who may end it.

use route_improve::MoveClock;

/// How much work a search does at the most.
///
/// Work is counted in places of routes that are looked at; charging counts by its labels. It is the
/// same on each machine.
#[derive(Clone, Copy, Debug, PartialEq, Eq)]
pub struct Effort {
    /// The work of all cycles together.
    pub work: u64,
    /// How often the search begins anew; each cycle gets the same share of the work.
    pub cycles: u64,
}

/// The work of the least effort, for one customer.
const WORK_A_CUSTOMER: u64 = 250_000;

/// So often at the most the effort is doubled.
const MOST_DOUBLINGS: u32 = 30;

impl Effort {
    /// The effort for so many customers, doubled so often: each doubling makes twice as many
    /// cycles.
    pub fn of(customers: usize, doublings: u32) -> Effort {
        let mut cycles: u64 = 1;
        for _ in 0..doublings.min(MOST_DOUBLINGS) {
            cycles = cycles.saturating_mul(2);
        }
        let work = WORK_A_CUSTOMER.saturating_mul(customers as u64);
        Effort {
            work: work.saturating_mul(cycles),
            cycles,
        }
    }
}

/// How far a search is.
#[derive(Clone, Copy, Debug, PartialEq, Eq)]
pub struct RecreateProgress {
    /// What the best routes cost, scaled, where a plan was found.
    pub cost: Option<u64>,
}

/// Who is told how far a search is, and may end it, and the moves behind it.
pub trait RecreateWatcher {
    /// Whether the search goes on; asked once in a while.
    fn goes_on(&mut self, progress: RecreateProgress) -> bool;
}

/// Nobody ends a search.
#[derive(Clone, Copy, Debug, Drop, PartialEq, Eq)]
pub struct GoOn;

impl RecreateWatcher for GoOn {
    fn goes_on(&mut self, _progress: RecreateProgress) -> bool {
        true
    }
}

/// Who watches a search, as the clock of the moves behind it.
#[derive(Drop)]
pub(crate) struct Watched<'w, W: RecreateWatcher> {
    watcher: &'w mut W,
    progress: RecreateProgress,
    has_ended: bool,
}

impl<'w, W: RecreateWatcher> Watched<'w, W> {
    /// The moves begin, behind a search that came so far.
    pub(crate) fn new(watcher: &'w mut W, progress: RecreateProgress) -> Self {
        Watched {
            watcher,
            progress,
            has_ended: false,
        }
    }
}

impl<'w, W: RecreateWatcher> MoveClock for Watched<'w, W> {
    ghost has_ended = { λ watched. watched.has_ended };

    fn is_over(&mut self) -> bool {
        if !self.has_ended {
            self.has_ended = !self.watcher.goes_on(self.progress);
        }
        self.has_ended
    }

    fn has_ended(&self) -> bool {
        self.has_ended
    }
}
