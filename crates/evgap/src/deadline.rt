//! When a search has had its time.

use evgap_run::{BranchClock, GapClock, JobClock, MoveClock, SearchClock};
use std::rt::Clock;
use std::time::Duration;

/// The last moves end a tenth of the seconds behind the time by which a search is to stop, and no
/// sooner than so many milliseconds behind it.
const MOVES_BEHIND: u64 = 3_000;

/// The time by which a search is to stop, by the clock of the system. Where the clock fails it goes
/// on.
#[derive(Drop)]
pub(crate) struct Deadline<'a, R: Clock> {
    rt: &'a R,
    /// `None` where the search takes what it takes.
    until: Option<Duration>,
    /// So many milliseconds behind it the last moves end.
    moves_behind: u64,
    /// Whether these were told to end.
    has_ended: bool,
}

impl<'a, R: Clock> Deadline<'a, R> {
    /// No time yet.
    pub(crate) fn new(rt: &'a R) -> Self {
        Deadline {
            rt,
            until: None,
            moves_behind: MOVES_BEHIND,
            has_ended: false,
        }
    }
}

impl<'a, R: Clock> SearchClock for Deadline<'a, R> {
    fn is_up(&mut self) -> bool {
        self.is_up_in(0)
    }
}

impl<'a, R: Clock> BranchClock for Deadline<'a, R> {
    fn is_up_in(&mut self, milliseconds: u64) -> bool {
        let Some(until) = self.until else {
            return false;
        };
        match self.rt.monotonic() {
            Ok(now) => is_behind(now, milliseconds, until),
            Err(_) => false,
        }
    }
}

impl<'a, R: Clock> GapClock for Deadline<'a, R> {
    fn is_up_since(&mut self, milliseconds: u64) -> bool {
        let Some(until) = self.until else {
            return false;
        };
        let Some(then) = until.checked_add(Duration::from_millis(milliseconds)) else {
            return false;
        };
        match self.rt.monotonic() {
            Ok(now) => is_behind(now, 0, then),
            Err(_) => false,
        }
    }
}

impl<'a, R: Clock> MoveClock for Deadline<'a, R> {
    ghost has_ended = { λ deadline. deadline.has_ended };

    fn is_over(&mut self) -> bool {
        if !self.has_ended {
            let behind = self.moves_behind;
            self.has_ended = self.is_up_since(behind);
        }
        self.has_ended
    }

    fn has_ended(&self) -> bool {
        self.has_ended
    }
}

/// Whether so many milliseconds from now on are at the end of a time, or behind it.
fn is_behind(now: Duration, milliseconds: u64, until: Duration) -> bool {
    match now.checked_add(Duration::from_millis(milliseconds)) {
        Some(then) => then.checked_sub(until).is_some(),
        None => true,
    }
}

impl<'a, R: Clock> JobClock for Deadline<'a, R> {
    fn begin(&mut self, seconds: Option<u64>) {
        let tenth = seconds.unwrap_or(0).saturating_mul(100);
        self.moves_behind = tenth.max(MOVES_BEHIND);
        self.has_ended = false;
        self.until = match (seconds, self.rt.monotonic()) {
            (Some(seconds), Ok(now)) => now.checked_add(Duration::from_secs(seconds)),
            _ => None,
        };
    }
}
