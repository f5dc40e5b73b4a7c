//! Values of labels, moved with tests of what the calls want. No clause rests on this.

ghost use Rattle.std.specs.Prelude.{◌≡◌, ◌≤◌, ℕ, true};
ghost use Rattle.charge_curve.specs.Points.{ArePoints, last_level};
ghost use Rattle.dominance.specs.LevelTimes.{IsLevel};
ghost use Rattle.piece_fn.specs.PieceFn.{level_times};

use dominance::LabelValue;
use instance_reader::Instance;
use label_steps::{arrival, departures};
use piece_fn::PieceFn;
use std::alloc::{AllocError, Global};

/// The last point of a value: its highest level and its latest time.
pub(crate) fn last_point(value: &PieceFn) -> (u64, u64) {
    let points = value.points();
    points[points.len() - 1]
}

/// The highest level of a value.
fn top_of(value: &PieceFn) -> u64
    ensures value { result ≡ last_level value.now }
    ensures valid { ArePoints value.now }
{
    let points = value.points();
    points[points.len() - 1].0
}

/// Whether no level of a value is above full.
fn is_within_full(inst: &Instance, value: &PieceFn) -> bool
    ensures { result ≡ true → (level : ℕ) → IsLevel (level_times value.now) level →
        level ≤ inst.now.capacity }
{
    top_of(value) <= inst.max_q()
}

/// What is left of a value on arriving at a node from another, at a level or above. Nothing is left
/// of one that is above full, nor where there is no such node.
pub(crate) fn arrived(
    inst: &Instance,
    value: &PieceFn,
    from: usize,
    to: usize,
    least: u64,
) -> Result<Option<PieceFn>, AllocError> {
    if from >= inst.nodes() || to >= inst.nodes() || !is_within_full(inst, value) {
        return Ok(None);
    }
    arrival(inst, value, from, to, least)
}

/// The values on leaving a node, by the value on arriving.
pub(crate) fn left(
    alloc: Global,
    inst: &Instance,
    arrived: PieceFn,
    node: usize,
) -> Result<Vec<PieceFn>, AllocError> {
    if node >= inst.nodes() || !is_within_full(inst, &arrived) {
        return Ok(Vec::new(alloc));
    }
    departures(alloc, inst, arrived, node)
}

/// The value without its levels below one; `None` where none is left.
pub(crate) fn cut_to(value: PieceFn, least: u64) -> Result<Option<PieceFn>, AllocError> {
    let (first, _) = value.least();
    if least <= first {
        return Ok(Some(value));
    }
    value.cut(least)
}

/// The least time at a level or above; `None` where there is no such level.
pub(crate) fn time_from(value: &PieceFn, level: u64) -> Option<u64> {
    let (first, early) = value.least();
    if level <= first {
        return Some(early);
    }
    value.at(level)
}

/// How far a value covers another, with so much extra, from a level on; `None` where it doesn't
/// there, or it is no level of the other.
pub(crate) fn reach(value: &PieceFn, other: &PieceFn, extra: u64, from: u64) -> Option<u64> {
    if other.at(from).is_none() {
        return None;
    }
    value.reach(other, extra, from)
}
