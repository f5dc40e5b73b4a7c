//! When a part of a search has to stop.

use near_branch::BranchClock;
use near_search::SearchClock;
use route_improve::MoveClock;
use ruin_recreate::{RecreateProgress, RecreateWatcher};

/// Who says when the time of a search for a close gap is up, and, some time behind that, when the
/// last moves of its plan have to end.
pub trait GapClock: BranchClock + MoveClock {
    /// Whether the time has been up for so many milliseconds.
    fn is_up_since(&mut self, milliseconds: u64) -> bool;
}

/// So many milliseconds behind the end of a clock a proof is to be through.
const PROOF_BEHIND: u64 = 4_600;

/// No time that is left is told to be longer, in milliseconds: some three months.
const LONGEST: u64 = 1 << 33;

/// When a part of a search ends.
#[derive(Clone, Copy, Debug, PartialEq, Eq)]
pub(crate) enum End {
    /// So many milliseconds before the time is up.
    Before(u64),
    /// So many behind that.
    Behind(u64),
    /// Whatever the clock says, when its work is done.
    Never,
}

impl End {
    /// Whether a clock is there.
    fn is_reached<C: GapClock>(self, clock: &mut C) -> bool {
        match self {
            End::Before(milliseconds) => clock.is_up_in(milliseconds),
            End::Behind(milliseconds) => clock.is_up_since(milliseconds),
            End::Never => false,
        }
    }
}

/// The end so many milliseconds before a proof is to be through.
fn before_proof(milliseconds: u64) -> End {
    match milliseconds.checked_sub(PROOF_BEHIND) {
        Some(before) => End::Before(before),
        None => End::Behind(PROOF_BEHIND.saturating_sub(milliseconds)),
    }
}

/// In how many milliseconds a proof is to be through; `None` where that is told to be never.
pub(crate) fn milliseconds_left<C: GapClock>(clock: &mut C) -> Option<u64> {
    if !before_proof(LONGEST).is_reached(clock) {
        return None;
    }
    let mut left: u64 = 0;
    let mut step = LONGEST;
    for _ in 0..u64::BITS {
        step /= 2;
        let further = left.saturating_add(step);
        if !before_proof(further).is_reached(clock) {
            left = further;
        }
    }
    Some(left)
}

/// A clock that is up at an end by another.
#[derive(Drop)]
pub(crate) struct Until<'c, C: GapClock> {
    clock: &'c mut C,
    end: End,
}

impl<'c, C: GapClock> Until<'c, C> {
    /// It is up so many milliseconds before the other.
    pub(crate) fn before(clock: &'c mut C, milliseconds: u64) -> Self {
        Until {
            clock,
            end: End::Before(milliseconds),
        }
    }

    /// It is up once so many parts of a hundred are over of the time that is left until a proof is
    /// to be through.
    pub(crate) fn part_of_proof(clock: &'c mut C, percent: u64) -> Self {
        let end = match milliseconds_left(clock) {
            Some(left) => {
                let part = left.saturating_mul(percent) / 100;
                before_proof(left.saturating_sub(part))
            }
            None => End::Never,
        };
        Until { clock, end }
    }
}

impl<'c, C: GapClock> SearchClock for Until<'c, C> {
    fn is_up(&mut self) -> bool {
        self.end.is_reached(self.clock)
    }
}

/// The clock of moves that are not the last ones.
#[derive(Drop)]
pub(crate) struct Moving<'c, C: GapClock> {
    clock: &'c mut C,
    end: End,
    has_ended: bool,
}

impl<'c, C: GapClock> Moving<'c, C> {
    /// The moves end by then.
    pub(crate) fn until(clock: &'c mut C, end: End) -> Self {
        Moving {
            clock,
            end,
            has_ended: false,
        }
    }
}

impl<'c, C: GapClock> MoveClock for Moving<'c, C> {
    ghost has_ended = { λ moving. moving.has_ended };

    fn is_over(&mut self) -> bool {
        if !self.has_ended {
            self.has_ended = self.end.is_reached(self.clock);
        }
        self.has_ended
    }

    fn has_ended(&self) -> bool {
        self.has_ended
    }
}

/// Who watches ruin and recreate, and ends it by a clock.
#[derive(Drop)]
pub(crate) struct Timed<'c, C: GapClock, W: RecreateWatcher> {
    pub(crate) clock: &'c mut C,
    pub(crate) end: End,
    pub(crate) watcher: &'c mut W,
}

impl<'c, C: GapClock, W: RecreateWatcher> Timed<'c, C, W> {
    /// Whether the time is up.
    pub(crate) fn is_up(&mut self) -> bool {
        self.end.is_reached(self.clock)
    }
}

impl<'c, C: GapClock, W: RecreateWatcher> RecreateWatcher for Timed<'c, C, W> {
    fn goes_on(&mut self, progress: RecreateProgress) -> bool {
        self.watcher.goes_on(progress) && !self.is_up()
    }
}
