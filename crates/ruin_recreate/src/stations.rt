//! The stations of an instance, as a search charges.

use crate::point::{Point, time_at};
use charge_curve::Scaled;
use std::alloc::{AllocError, Global};

/// A station.
#[derive(Drop)]
pub(crate) struct Station {
    /// The time to each level above the reserve, which is 0 at the reserve.
    pub(crate) curve: Vec<Point>,
    /// The time of plugging in.
    pub(crate) plug: u64,
}

impl Station {
    /// A station with a curve, in which `reserve` is the level 0, and times are counted by `unit`.
    pub(crate) fn new(
        alloc: Global,
        scaled: &Scaled,
        plug: u64,
        reserve: u64,
        unit: u64,
    ) -> Result<Station, AllocError> {
        let mut whole = Vec::new(alloc);
        for (level, time) in scaled.breaks() {
            whole.push(Point {
                level: *level,
                time: *time / unit.max(1),
            })?;
        }
        let start = time_at(&whole, reserve);
        let mut curve = Vec::new(alloc);
        curve.push(Point { level: 0, time: 0 })?;
        for point in &whole {
            if point.level > reserve {
                curve.push(Point {
                    level: point.level - reserve,
                    time: point.time.wrapping_sub(start),
                })?;
            }
        }
        Ok(Station {
            curve,
            plug: plug / unit.max(1),
        })
    }

    /// The least time of a unit of charge.
    pub(crate) fn least_rate(&self) -> u64 {
        let mut least = u64::MAX;
        for rate in 0..self.curve.len().saturating_sub(1) {
            least = least.min(rate_at(&self.curve, rate));
        }
        least
    }

    /// Whether it is no slower than another from each level on.
    pub(crate) fn is_no_slower(&self, other: &Station) -> bool {
        if self.plug > other.plug {
            return false;
        }
        for point in &self.curve {
            if rate_from(&self.curve, point.level) > rate_from(&other.curve, point.level) {
                return false;
            }
        }
        for point in &other.curve {
            if rate_from(&self.curve, point.level) > rate_from(&other.curve, point.level) {
                return false;
            }
        }
        true
    }
}

/// The time of a unit of charge behind the point at a place; 0 behind the last.
fn rate_at(curve: &[Point], place: usize) -> u64 {
    let (Some(low), Some(high)) = (curve.get(place), curve.get(place.saturating_add(1))) else {
        return 0;
    };
    let rise = high.level.wrapping_sub(low.level).max(1);
    high.time.wrapping_sub(low.time) / rise
}

/// The time of a unit of charge from a level on; 0 where it is full.
fn rate_from(curve: &[Point], level: u64) -> u64 {
    for place in 0..curve.len() {
        if curve[place].level > level {
            return rate_at(curve, place.saturating_sub(1));
        }
    }
    0
}
