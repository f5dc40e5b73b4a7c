//! Whether each state of a value is covered, one level after another.

ghost use Rattle.std.specs.Prelude.{◌≡◌, ℕ, false, true, IfNone, IfSome};
ghost use Rattle.charge_curve.specs.Points.{ArePoints, last_level};
ghost use Rattle.dominance.specs.LevelTimes.{IsLevel, time_at};
ghost use Rattle.piece_fn.specs.PieceFn.{level_times};
ghost use Rattle.label_steps.specs.Covering.{IsCoveredAll, IsCoveredTo, IsMissed};

use dominance::LabelValue;
use piece_fn::PieceFn;

/// Labels of which some may cover states that differ in their levels and times alone.
///
/// Which labels those are, and by what margin they have to be earlier since they have paid less, is
/// for the implementation to say.
pub trait Covering {
    // The state with a level at a time is covered.
    ghost covers: { Self → ℕ → ℕ → Type 0 };

    /// A level up to which each state of the value is covered from a level on; `None` where the
    /// state at that level is not covered. It takes no memory.
    fn reach(&self, value: &PieceFn, level: u64) -> Option<u64>
        requires level { IsLevel (level_times value.now) level }
        ensures some { IfSome result
            (IsCoveredTo (covers self.now) (level_times value.now) level) }
        ensures none { IfNone result
            (covers self.now level (time_at (level_times value.now) level) → ⊥) };
}

/// Whether each state of the value is covered: those with its levels, at its times there. It takes
/// no memory.
pub fn covers_all<C: Covering>(labels: &C, value: &PieceFn) -> bool
    ensures covered { result ≡ true →
        IsCoveredAll (C.covers labels.now) (level_times value.now) }
    ensures missed { result ≡ false → IsMissed (C.covers labels.now) (level_times value.now) }
{
    let last = last_level(value);
    let (mut level, _) = value.least();
    while let Some(to) = labels.reach(value, level) {
        if to >= last {
            return true;
        }
        level = to + 1;
    }
    false
}

/// The highest level of a value.
fn last_level(value: &PieceFn) -> u64
    ensures value { result ≡ last_level value.now }
    ensures valid { ArePoints value.now }
{
    let points = value.points();
    points[points.len() - 1].0
}
