//! What a unit of level is worth. No clause rests on this.

ghost use Rattle.std.specs.Prelude.{◌≤◌, ◌^◌, unsigned_abs};

use charge_curve::Scaled;
use instance_reader::Instance;
use std::marker::Model;

/// What a unit of level is worth: the least scaled time in which any station charges one, 0 where
/// none does, and at most 10^18.
#[derive(Clone, Copy, Debug, PartialEq, Eq)]
pub struct Rate {
    time: u64,
}

impl Model for Rate {
    ghost use Rattle.std.specs.Prelude.{ℕ, ◌≤◌, ◌^◌};

    ghost Value = { ℕ };

    ghost view = { λ r. r.time };

    ghost invariant = { λ r. r.time ≤ 10 ^ 18 };

    ghost inverse = { λ n. record { time = n } };
}

impl Rate {
    /// The rate on an instance.
    pub fn new(inst: &Instance) -> Rate {
        let mut least = u64::MAX;
        for node in 0..inst.nodes() {
            if let Some(curve) = inst.curve_at(node) {
                least = least.min(rate_of(curve));
            }
        }
        Rate::of(least)
    }

    /// The rate of so much time; 0 where that is more than any curve takes.
    fn of(time: u64) -> Rate {
        let time = if time <= 1_000_000_000_000_000_000 {
            time
        } else {
            0
        };
        Rate { time }
    }

    /// What a level is worth, in scaled time.
    pub fn worth(self, level: u64) -> i128
        ensures { unsigned_abs result ≤ 2 ^ 124 }
    {
        i128::from(self.time) * i128::from(level)
    }

    /// A time less what the level is worth.
    pub fn lateness(self, level: u64, time: u64) -> i128 {
        i128::from(time) - i128::from(self.time) * i128::from(level)
    }
}

/// The least time of a unit of level on a curve, the greatest number where it has no piece.
fn rate_of(curve: &Scaled) -> u64 {
    let mut least = u64::MAX;
    let mut before: Option<(u64, u64)> = None;
    for (level, time) in curve.breaks() {
        if let Some(earlier) = before {
            least = least.min(slope(earlier, (*level, *time)));
        }
        before = Some((*level, *time));
    }
    least
}

/// The time of a unit of level between two points, the greatest number where they are no piece.
fn slope(from: (u64, u64), to: (u64, u64)) -> u64 {
    if from.0 < to.0 && from.1 <= to.1 {
        (to.1 - from.1) / (to.0 - from.0)
    } else {
        u64::MAX
    }
}
