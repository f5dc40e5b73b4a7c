//! Curves with scaled times, from which a charge time is read.

ghost use Rattle.std.specs.Prelude.{◌≡◌, ◌+◌, ◌-◌, ◌*◌, ◌<◌, ◌≤◌, ◌^◌, ℕ, IfOk, length, map};
ghost use Rattle.std.specs.List.{All};
ghost use Rattle.charge_curve.specs.CutCurve.{IsAccepted};
ghost use Rattle.charge_curve.specs.Points.{ArePoints, last_level, slope, time_on};
ghost use Rattle.charge_curve.specs.Scaled.{below, breaks_of, IsScaledCurve, scaled};
ghost use Rattle.ev_model.specs.Curve.{charge_time, IsMultipleOfSlopes, Rises};

use crate::curve::Curve;
use std::alloc::AllocError;
use std::marker::Model;

/// A curve with scaled times, cut at a full battery.
///
/// Contracts see its breakpoints as (level, scaled time), from (0, 0) to a full battery.
#[derive(Drop)]
pub struct Scaled {
    breaks: Vec<(u64, u64)>,
}

impl Model for Scaled {
    ghost use Rattle.std.specs.Prelude.{List, ℕ};
    ghost use Rattle.charge_curve.specs.Scaled.{IsScaledCurve};

    ghost Value = { List (ℕ × ℕ) };

    ghost view = { λ s. s.breaks.items };

    ghost invariant = { λ s. IsScaledCurve s.breaks.items };
}

impl Curve {
    /// The curve with its times multiplied by `d`, which makes the charge time to every whole level
    /// whole.
    pub fn scale(&self, d: u64) -> Result<Scaled, AllocError>
        requires small { d ≤ 10 ^ 9 }
        requires multiple { IsMultipleOfSlopes self.now.full self.now.points d }
        ensures breaks { IfOk result (λ s. s ≡ breaks_of d self.now.full self.now.points) }
        ensures times { IfOk result (λ s. (level : ℕ) → level ≤ self.now.full
            → time_on s level ≡ charge_time d self.now.points level) }
        ensures full { IfOk result (λ s. last_level s ≡ self.now.full) }
    {
        let breaks = self.scaled_breaks(d)?;
        Ok(Scaled { breaks })
    }

    /// The breakpoints up to a full battery, as (level, scaled time).
    fn scaled_breaks(&self, d: u64) -> Result<Vec<(u64, u64)>, AllocError>
        requires small { d ≤ 10 ^ 9 }
        ensures breaks { IfOk result (λ v. v.items ≡ breaks_of d self.now.full self.now.points) }
        ensures accepted { IsAccepted self.now }
    {
        let full = self.full();
        let end = scaled_time(self.points(), full, d);
        let mut breaks = self.breaks_below_full(d)?;
        breaks.push((full, end))?;
        Ok(breaks)
    }

    /// The breakpoints below a full battery, as (level, scaled time).
    fn breaks_below_full(&self, d: u64) -> Result<Vec<(u64, u64)>, AllocError>
        requires small { d ≤ 10 ^ 9 }
        ensures { IfOk result
            (λ v. v.items ≡ map (scaled d) (below self.now.full self.now.points)) }
    {
        let points = self.points();
        let full = self.full();
        let mut breaks = Vec::new(*self.allocator());
        for point in points {
            if point.1 < full {
                breaks.push((point.1, d * point.0))?;
            }
        }
        Ok(breaks)
    }
}

/// `d` times the time from empty to a level.
fn scaled_time(points: &[(u64, u64)], level: u64, d: u64) -> u64
    requires some { 0 < length points.now }
    requires rises { Rises points.now }
    requires small { All (λ p. p.0 ≤ 10 ^ 9) points.now }
    requires small_denominator { d ≤ 10 ^ 9 }
    ensures value { result ≡ charge_time d points.now level }
    ensures small { result ≤ 10 ^ 18 }
{
    for index in 0..points.len() - 1 {
        let (from, to) = (points[index], points[index + 1]);
        if level <= to.1 {
            return time_between((from.1, d * from.0), (to.1, d * to.0), level);
        }
    }
    d * points[points.len() - 1].0
}

/// The time at a level up to the second of two points (level, time).
fn time_between(from: (u64, u64), to: (u64, u64), level: u64) -> u64
    requires higher { from.0 < to.0 }
    requires later { from.1 ≤ to.1 }
    requires within { level ≤ to.0 }
    ensures value { result ≡ from.1 + slope from to * (level - from.0) }
    ensures end { result ≤ to.1 }
{
    from.1 + (to.1 - from.1) / (to.0 - from.0) * level.saturating_sub(from.0)
}

impl Scaled {
    /// The scaled time from empty to a level. It takes no memory.
    pub fn time_to(&self, level: u64) -> u64
        requires { level ≤ last_level self.now }
        ensures value { result ≡ time_on self.now level }
        ensures small { result ≤ 10 ^ 18 }
    {
        time_at(self.breaks.as_slice(), level)
    }

    /// The breakpoints as (level, scaled time), from (0, 0) to a full battery. It takes no memory.
    pub fn breaks(&self) -> &[(u64, u64)]
        ensures value { result.now ≡ self.now }
        ensures curve { IsScaledCurve self.now }
    {
        self.breaks.as_slice()
    }
}

/// The time at a level, by points (level, time).
fn time_at(points: &[(u64, u64)], level: u64) -> u64
    requires points { ArePoints points.now }
    requires small { All (λ p. p.1 ≤ 10 ^ 18) points.now }
    ensures value { result ≡ time_on points.now level }
    ensures small { result ≤ 10 ^ 18 }
{
    for index in 0..points.len() - 1 {
        let (from, to) = (points[index], points[index + 1]);
        if level <= to.0 {
            return time_between(from, to, level);
        }
    }
    points[points.len() - 1].1
}
