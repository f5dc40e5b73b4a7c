//! When moves have to end.

ghost use Rattle.std.specs.Prelude.{◌≡◌, Bool, IsTrue, false};

/// Who says when the time of moves is up. Once it said so it stays so: what was made by then is
/// kept, and nothing more is looked at.
pub trait MoveClock {
    // it said that the time is up
    ghost has_ended: { Self → Bool };

    /// Whether the time is up.
    fn is_over(&mut self) -> bool
        ensures is { result ≡ has_ended self.new }
        ensures stays { IsTrue (has_ended self.old) → IsTrue (has_ended self.new) };

    /// Whether it said so already.
    fn has_ended(&self) -> bool
        ensures { result ≡ has_ended self.now };
}

/// A clock whose time is never up.
#[derive(Clone, Copy, Debug, Drop, PartialEq, Eq)]
pub struct Endless;

impl MoveClock for Endless {
    ghost has_ended = { λ _. false };

    fn is_over(&mut self) -> bool {
        false
    }

    fn has_ended(&self) -> bool {
        false
    }
}
