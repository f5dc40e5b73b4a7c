//! Who says when a search has had its time.

ghost use Rattle.std.specs.Prelude.{Option, false, true, ℕ};

use gap_search::{BranchClock, GapClock, MoveClock, SearchClock};

/// A clock that begins once the words are read. When it is up isn't promised: that changes what a
/// search finds, and nothing of what is true of that.
pub trait JobClock: GapClock {
    // It was begun last with so many seconds, or with none.
    ghost Begun: { Self → Option ℕ → Type 0 } = { λ _ _. Unit {0} };

    /// From now on the search may take so many seconds, or as many as it takes.
    fn begin(&mut self, seconds: Option<u64>)
        ensures { Begun self.new seconds };
}

/// A clock that is never up.
#[derive(Drop)]
pub struct Never {}

impl SearchClock for Never {
    fn is_up(&mut self) -> bool {
        false
    }
}

impl BranchClock for Never {
    fn is_up_in(&mut self, _milliseconds: u64) -> bool {
        false
    }
}

impl MoveClock for Never {
    ghost has_ended = { λ _. false };

    fn is_over(&mut self) -> bool {
        false
    }

    fn has_ended(&self) -> bool {
        false
    }
}

impl GapClock for Never {
    fn is_up_since(&mut self, _milliseconds: u64) -> bool {
        false
    }
}

impl JobClock for Never {
    fn begin(&mut self, _seconds: Option<u64>) {}
}

/// A clock that is up at once.
#[derive(Drop)]
pub struct AtOnce {}

impl SearchClock for AtOnce {
    fn is_up(&mut self) -> bool {
        true
    }
}

impl BranchClock for AtOnce {
    fn is_up_in(&mut self, _milliseconds: u64) -> bool {
        true
    }
}

impl MoveClock for AtOnce {
    ghost has_ended = { λ _. true };

    fn is_over(&mut self) -> bool {
        true
    }

    fn has_ended(&self) -> bool {
        true
    }
}

impl GapClock for AtOnce {
    fn is_up_since(&mut self, _milliseconds: u64) -> bool {
        true
    }
}

impl JobClock for AtOnce {
    fn begin(&mut self, _seconds: Option<u64>) {}
}
