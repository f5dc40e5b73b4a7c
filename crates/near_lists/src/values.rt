//! Values of labels, with tests of what the calls want. No clause rests on this.

use dominance::LabelValue;
use near_completion::Ground;
use piece_fn::PieceFn;
use std::alloc::{AllocError, Global};

/// The last point of a value: its highest level and its latest time.
pub(crate) fn last_point(value: &PieceFn) -> (u64, u64) {
    let points = value.points();
    points[points.len() - 1]
}

/// A copy of a value.
pub(crate) fn copy_of(alloc: Global, value: &PieceFn) -> Result<PieceFn, AllocError> {
    PieceFn::from_points(alloc, value.points())
}

/// The least time at a level or above; `None` where there is no such level.
pub(crate) fn time_from(value: &PieceFn, level: u64) -> Option<u64> {
    let (first, early) = value.least();
    if level <= first {
        return Some(early);
    }
    value.at(level)
}

/// How far a value covers another, with so much extra, from a level on; `None` where it doesn't
/// there, or it is no level of the other.
pub(crate) fn reach(value: &PieceFn, other: &PieceFn, extra: u64, from: u64) -> Option<u64> {
    if other.at(from).is_none() {
        return None;
    }
    value.reach(other, extra, from)
}

/// The times that are later than what the level is worth by so much, within the limit; where levels
/// are worth nothing, that of a full battery alone. `None` where that is past the limit.
pub(crate) fn line_from(
    alloc: Global,
    ground: &Ground,
    early: u64,
) -> Result<Option<PieceFn>, AllocError> {
    let Some(room) = ground.limit().checked_sub(early) else {
        return Ok(None);
    };
    let Ok(rate) = u64::try_from(ground.rate().worth(1)) else {
        return Ok(None);
    };
    let Some(most) = room.checked_div(rate) else {
        return Ok(Some(PieceFn::point(alloc, ground.full(), early)));
    };
    let level = ground.full().min(most);
    let late = early.saturating_add(rate.saturating_mul(level));
    let points = [(0, early), (level, late)];
    if !PieceFn::is_points(&points) {
        return Ok(Some(PieceFn::point(alloc, 0, early)));
    }
    Ok(Some(PieceFn::from_points(alloc, &points)?))
}
