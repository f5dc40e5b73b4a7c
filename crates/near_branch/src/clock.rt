//! When the growing of a tree has to stop. No clause rests on this.

use near_search::SearchClock;

/// When a search has to stop, or will have to soon.
pub trait BranchClock: SearchClock {
    /// Whether the time will be up in so many milliseconds.
    fn is_up_in(&mut self, milliseconds: u64) -> bool;
}

/// A clock that is up so many milliseconds before another, or once it was asked too often: searches
/// ask it the oftener the longer they take.
#[derive(Drop)]
pub(crate) struct Early<'c, C: BranchClock> {
    pub(crate) clock: &'c mut C,
    pub(crate) milliseconds: u64,
    /// So often it may be asked yet.
    pub(crate) looks: u64,
}

impl<'c, C: BranchClock> SearchClock for Early<'c, C> {
    fn is_up(&mut self) -> bool {
        if self.looks == 0 {
            return true;
        }
        self.looks = self.looks.saturating_sub(1);
        self.clock.is_up_in(self.milliseconds)
    }
}

/// No time that is left is told to be longer, in milliseconds: some three months.
const LONGEST: u64 = 1 << 33;

/// In how many milliseconds the time will be up; `None` where that is told to be never.
pub(crate) fn milliseconds_left<C: BranchClock>(clock: &mut C) -> Option<u64> {
    if !clock.is_up_in(LONGEST) {
        return None;
    }
    let mut left: u64 = 0;
    let mut step = LONGEST;
    for _ in 0..u64::BITS {
        step /= 2;
        let further = left.saturating_add(step);
        if !clock.is_up_in(further) {
            left = further;
        }
    }
    Some(left)
}
