//! Whether the states of a value are covered, asked first of labels that are likely to cover them,
//! and of all where these don't.

ghost use Rattle.std.specs.Prelude.{◌≡◌, IfNone, IfSome, false, true};
ghost use Rattle.charge_curve.specs.Points.{ArePoints, last_level};
ghost use Rattle.dominance.specs.LevelTimes.{IsLevel, time_at};
ghost use Rattle.label_steps.specs.Covering.{IsCoveredAll, IsCoveredTo, IsMissed};
ghost use Rattle.piece_fn.specs.PieceFn.{level_times};

use crate::looks::{Compared, Looks, Sought};
use dominance::LabelValue;
use label_steps::Covering;
use piece_fn::PieceFn;

/// Labels of which each may be asked by its number.
pub trait OneByOne<C: Compared>: Covering {
    /// The node whose labels are asked.
    fn node(&self) -> usize;

    /// The state with a level at a time.
    fn sought(&self, level: u64, time: u64) -> Sought<C>;

    /// A level up to which the label with a number covers each state of the value from a level on,
    /// whose time is given; `None` says nothing. It takes no memory.
    fn reach_of(&self, number: usize, value: &PieceFn, level: u64, time: u64) -> Option<u64>
        requires level { IsLevel (level_times value.now) level }
        requires time { time ≡ time_at (level_times value.now) level }
        ensures { IfSome result
            (IsCoveredTo (Self.covers self.now) (level_times value.now) level) };
}

/// Whether each state of the value is covered: those with its levels, at its times there. It takes
/// no memory.
pub fn covers_value<C: Compared, A: OneByOne<C>>(
    asked: &A,
    looks: &mut Looks<C>,
    value: &PieceFn,
) -> bool
    ensures covered { result ≡ true → IsCoveredAll (A.covers asked.now) (level_times value.now) }
    ensures missed { result ≡ false → IsMissed (A.covers asked.now) (level_times value.now) }
{
    let last = last_level(value);
    let (mut level, _) = value.least();
    while let Some(to) = reach_soon(asked, looks, value, level) {
        if to >= last {
            return true;
        }
        level = to + 1;
    }
    false
}

/// A level up to which each state of the value is covered from a level on; `None` where the state
/// at that level is not covered.
fn reach_soon<C: Compared, A: OneByOne<C>>(
    asked: &A,
    looks: &mut Looks<C>,
    value: &PieceFn,
    level: u64,
) -> Option<u64>
    requires level { IsLevel (level_times value.now) level }
    ensures some { IfSome result
        (IsCoveredTo (A.covers asked.now) (level_times value.now) level) }
    ensures none { IfNone result
        (A.covers asked.now level (time_at (level_times value.now) level) → ⊥) }
{
    match reach_first(asked, looks, value, level) {
        Some(to) => Some(to),
        None => asked.reach(value, level),
    }
}

/// The same by labels as they are looked at; `None` says nothing.
fn reach_first<C: Compared, A: OneByOne<C>>(
    asked: &A,
    looks: &mut Looks<C>,
    value: &PieceFn,
    level: u64,
) -> Option<u64>
    requires level { IsLevel (level_times value.now) level }
    ensures some { IfSome result
        (IsCoveredTo (A.covers asked.now) (level_times value.now) level) }
{
    let Some(time) = value.at(level) else {
        return None;
    };
    let node = asked.node();
    let sought = asked.sought(level, time);
    let mut from = 0;
    for _ in 0..looks.count(node) {
        let Some((place, number)) = looks.next(node, from, &sought) else {
            return None;
        };
        if let Some(to) = asked.reach_of(number, value, level, time) {
            looks.raise(node, place);
            return Some(to);
        }
        from = place.wrapping_add(1);
    }
    None
}

/// The highest level of a value.
pub(crate) fn last_level(value: &PieceFn) -> u64
    ensures value { result ≡ last_level value.now }
    ensures valid { ArePoints value.now }
{
    let points = value.points();
    points[points.len() - 1].0
}
