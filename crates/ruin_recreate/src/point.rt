//! Times by levels: points (level, time), both rising.

use std::alloc::{AllocError, Global};

/// A time at a level, which is counted from the reserve.
#[derive(Clone, Copy)]
pub(crate) struct Point {
    pub(crate) level: u64,
    pub(crate) time: u64,
}

/// The time at a level on the way from a point to another. Sums wrap, which no times do that a
/// ground has.
fn between(low: Point, high: Point, level: u64) -> u64 {
    let rise = high.level.wrapping_sub(low.level).max(1);
    let slope = high.time.wrapping_sub(low.time) / rise;
    let above = level.wrapping_sub(low.level);
    low.time.wrapping_add(slope.wrapping_mul(above))
}

/// The time at a level: that of the first point below it, that of the last one above.
pub(crate) fn time_at(points: &[Point], level: u64) -> u64 {
    let mut low: Option<Point> = None;
    for point in points {
        if point.level >= level {
            return match low {
                Some(low) if point.level > level => between(low, *point, level),
                _ => point.time,
            };
        }
        low = Some(*point);
    }
    match low {
        Some(low) => low.time,
        None => 0,
    }
}

/// Whether at each level of the second times the first are there and no later.
pub(crate) fn covers(first: &[Point], second: &[Point]) -> bool {
    let (Some(one), Some(other)) = (first.last(), second.last()) else {
        return false;
    };
    one.level >= other.level && are_no_later(first, second) && are_no_earlier(second, first)
}

/// Whether the first times are no later at each point of the second.
fn are_no_later(first: &[Point], second: &[Point]) -> bool {
    let mut place = 0;
    for point in second {
        place = place_from(first, place, point.level);
        if time_near(first, place, point.level) > point.time {
            return false;
        }
    }
    true
}

/// Whether the first times are no earlier at each point of the second that is within their levels.
fn are_no_earlier(first: &[Point], second: &[Point]) -> bool {
    let (Some(lowest), Some(highest)) = (first.first(), first.last()) else {
        return true;
    };
    let mut place = 0;
    for point in second {
        if point.level > lowest.level && point.level < highest.level {
            place = place_from(first, place, point.level);
            if time_near(first, place, point.level) < point.time {
                return false;
            }
        }
    }
    true
}

/// The first place, from one on, of a point with so high a level.
fn place_from(points: &[Point], from: usize, level: u64) -> usize {
    for place in from..points.len() {
        if points[place].level >= level {
            return place;
        }
    }
    points.len()
}

/// The time at a level, where the point at a place is the first with so high a level.
fn time_near(points: &[Point], place: usize, level: u64) -> u64 {
    let Some(high) = points.get(place) else {
        return u64::MAX;
    };
    if high.level == level || place == 0 {
        return high.time;
    }
    match points.get(place - 1) {
        Some(low) => between(*low, *high, level),
        None => high.time,
    }
}

/// What is left of times behind an arc, as far as they are no later than `latest`.
pub(crate) fn drive(
    from: &[Point],
    energy: u64,
    time: u64,
    latest: u64,
    into: &mut Vec<Point>,
) -> Result<(), AllocError> {
    into.clear();
    let mut low: Option<Point> = None;
    for point in from {
        if point.level < energy {
            low = Some(*point);
            continue;
        }
        if let Some(low) = low {
            if into.is_empty() && point.level > energy {
                let first = between(low, *point, energy).wrapping_add(time);
                into.push(Point {
                    level: 0,
                    time: first,
                })?;
            }
        }
        let late = point.time.wrapping_add(time);
        into.push(Point {
            level: point.level - energy,
            time: late,
        })?;
        if late > latest {
            break;
        }
    }
    cut_late(into, latest);
    Ok(())
}

/// Takes out of times what is later than `latest`.
pub(crate) fn cut_late(points: &mut Vec<Point>, latest: u64) {
    for _ in 0..points.len() {
        let Some(last) = points.last().copied() else {
            return;
        };
        if last.time <= latest {
            return;
        }
        points.pop();
        let Some(before) = points.last().copied() else {
            return;
        };
        if before.time <= latest {
            shorten(points, before, last, latest);
            return;
        }
    }
}

/// Adds the last point before `latest` between two points, the first of which is the last one.
fn shorten(points: &mut Vec<Point>, before: Point, last: Point, latest: u64) {
    let rise = last.level.wrapping_sub(before.level).max(1);
    let slope = (last.time.wrapping_sub(before.time) / rise).max(1);
    let steps = latest.wrapping_sub(before.time) / slope;
    if steps > 0 {
        let end = Point {
            level: before.level.wrapping_add(steps),
            time: before.time.wrapping_add(slope.wrapping_mul(steps)),
        };
        // Where a point was taken out there is room for one.
        let _ = points.push(end);
    }
}

/// An empty vector with room for some points.
pub(crate) fn room_for_points(alloc: Global) -> Result<Vec<Point>, AllocError> {
    Vec::with_capacity(alloc, 256)
}
