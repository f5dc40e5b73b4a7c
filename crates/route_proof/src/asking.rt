//! Whether the vehicles at a place are covered by the labels.

ghost use Rattle.std.specs.Prelude.{◌≡◌, ◌<◌, IfNone, IfSome, Some, length, slice_get};
ghost use Rattle.charge_curve.specs.Points.{ArePoints, last_level};
ghost use Rattle.dominance.specs.LevelTimes.{IsLevel, time_at};
ghost use Rattle.label_steps.specs.Covering.{IsCoveredTo};
ghost use Rattle.piece_fn.specs.PieceFn.{level_times};
ghost use Rattle.route_proof.specs.Covered.{Covers, IsCovered};
ghost use Rattle.route_proof.specs.declared.proof.RouteLabel.{RouteLabel};
ghost use Rattle.route_proof.specs.Asking.{covers, vehicle};

use crate::judged::Judged;
use crate::links::key_of;
use label_index::{first, is_in_time};
use label_steps::Covering;
use piece_fn::PieceFn;
use route_steps::Place;

/// The vehicles at a place, asked of labels.
#[derive(Drop)]
pub(crate) struct Asked<'a> {
    pub(crate) judged: &'a Judged<'a>,
    pub(crate) place: Place,
}

impl Covering for Asked<'_> {
    ghost use Rattle.route_proof.specs.Asking.{covers};

    ghost covers = { λ a level time. covers a.judged.now a.place level time };

    /// Times never fall with the level, so where one is at the bar or past it, no higher level is
    /// asked for.
    fn reach(&self, value: &PieceFn, level: u64) -> Option<u64> {
        let Some(time) = value.at(level) else {
            return None;
        };
        if self.judged.bar() <= time {
            return Some(last_level(value));
        }
        self.reach_by_any(value, level, time)
    }
}

impl Asked<'_> {
    /// How far one label covers the value, from a level on; `None` where none covers the vehicle at
    /// that level.
    fn reach_by_any(&self, value: &PieceFn, level: u64, time: u64) -> Option<u64>
        requires level { IsLevel (level_times value.now) level }
        requires time { time ≡ time_at (level_times value.now) level }
        ensures some { IfSome result (IsCoveredTo (covers self.now.judged.now self.now.place)
            (level_times value.now) level) }
        ensures none { IfNone result (IsCovered self.now.judged.now.labels
            (vehicle self.now.place level time) → ⊥) }
    {
        let key = key_of(
            self.judged.instance().nodes(),
            self.place.passed,
            self.place.node,
        );
        let entries = self.judged.entries();
        let begin = first(entries, key);
        let mut at = begin;
        while is_in_time(entries, at, key, time) {
            match self.reach_by(entries[at].number, value, level) {
                Some(to) => return Some(to),
                None => at += 1,
            }
        }
        None
    }

    /// How far the label with a number covers the value, from a level on; `None` where it does not
    /// cover the vehicle at that level.
    fn reach_by(&self, number: usize, value: &PieceFn, level: u64) -> Option<u64>
        requires known { number < length self.now.judged.now.labels }
        requires level { IsLevel (level_times value.now) level }
        ensures some { IfSome result (IsCoveredTo (covers self.now.judged.now self.now.place)
            (level_times value.now) level) }
        ensures none { IfNone result ((l : RouteLabel) →
            slice_get self.now.judged.now.labels number ≡ Some l →
            Covers l (vehicle self.now.place level (time_at (level_times value.now) level)) → ⊥) }
    {
        let label = self.judged.label(number);
        if label.passed != self.place.passed || label.node != self.place.node {
            return None;
        }
        label.value.reach(value, 0, level)
    }
}

/// The highest level of a value.
fn last_level(value: &PieceFn) -> u64
    ensures value { result ≡ last_level value.now }
    ensures valid { ArePoints value.now }
{
    let points = value.points();
    points[points.len() - 1].0
}
