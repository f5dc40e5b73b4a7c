//! When a further line is due.

use std::env;
use std::rt::Env;
use std::time::Duration;

/// How many seconds nothing is told at first.
const FIRST: u64 = 3;

/// How many seconds nothing is told behind a line.
const BETWEEN: u64 = 1;

/// A pace: at which time the next line is due, and none before.
#[derive(Drop)]
pub struct Pace {
    /// `None` where no clock reaches that time.
    next: Option<Duration>,
}

impl Pace {
    ghost use Rattle.std.specs.Prelude.{◌≡◌, ◌+◌, ◌*◌, ◌^◌, ◌≤◌, ◌↔◌};
    ghost use Rattle.std.specs.Prelude.{IfSome, IsTrue, MatchOption, false};
    ghost use Rattle.std.specs.Duration.{as_nanos};

    /// The pace of what begins at a time: the first line is due 3 seconds later.
    pub fn beginning(at: Duration) -> Pace
        ensures { IfSome result.next
            (λ next. as_nanos next ≡ as_nanos at + 3 * 10 ^ 9) }
    {
        Pace {
            next: at.checked_add(Duration::from_secs(FIRST)),
        }
    }

    /// Whether a line is due now. Then the next is due a second later.
    pub fn is_due(&mut self, now: Duration) -> bool
        ensures due { IsTrue result
            ↔ MatchOption self.old.next ⊥ (λ next. as_nanos next ≤ as_nanos now) }
        ensures next { IsTrue result → IfSome self.new.next
            (λ next. as_nanos next ≡ as_nanos now + 10 ^ 9) }
        ensures stays { result ≡ false → self.new ≡ self.old }
    {
        let Some(next) = self.next else {
            return false;
        };
        if now.checked_sub(next).is_none() {
            return false;
        }
        self.next = now.checked_add(Duration::from_secs(BETWEEN));
        true
    }
}

/// Whether people want to be told: unless the variable `EVROUTE_PROGRESS` is `0`.
pub fn wants_progress<R: Env + Alloc>(rt: &R) -> bool {
    match env::var(rt, "EVROUTE_PROGRESS") {
        Ok(value) => value.as_str() != "0",
        Err(_) => true,
    }
}
