//! When a search has to stop. No clause rests on this.

/// Who is asked, between two labels, whether to stop.
pub trait SearchClock {
    /// Whether the time is up.
    fn is_up(&mut self) -> bool;
}

/// A clock that never stops a search.
#[derive(Clone, Copy, Debug, PartialEq, Eq)]
pub struct NoClock;

impl SearchClock for NoClock {
    fn is_up(&mut self) -> bool {
        false
    }
}
