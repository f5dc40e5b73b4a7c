//! A clock that isn't asked at once. No clause rests on this.

use near_search::SearchClock;

/// A search asks its clock once for about so many labels.
const LABELS_A_LOOK: usize = 64;

/// A clock that isn't asked before so many looks were made.
#[derive(Drop)]
pub(crate) struct Patient<'c, C: SearchClock> {
    looks: usize,
    clock: &'c mut C,
}

impl<'c, C: SearchClock> Patient<'c, C> {
    /// That which isn't asked before so many labels were made.
    pub(crate) fn new(labels: usize, clock: &'c mut C) -> Patient<'c, C> {
        Patient {
            looks: labels / LABELS_A_LOOK,
            clock,
        }
    }
}

impl<'c, C: SearchClock> SearchClock for Patient<'c, C> {
    fn is_up(&mut self) -> bool {
        if self.looks > 0 {
            self.looks -= 1;
            return false;
        }
        self.clock.is_up()
    }
}
