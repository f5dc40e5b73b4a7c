//! The number by which every charge time becomes whole.

ghost use Rattle.std.specs.Prelude.{◌≡◌, ◌<◌, ◌≤◌, ℕ, IfNone, IfSome};
ghost use Rattle.std.specs.Int.{◌∣◌};
ghost use Rattle.charge_curve.specs.Multiples.{AreMultiples, IsCommonDenominator, IsPast};
ghost use Rattle.ev_model.specs.Curve.{IsMultipleOfSlope, IsMultipleOfSlopes, Rises};

use crate::curve::Curve;
use ev_units::{gcd, lcm_below};

/// The denominator of curves: the least common multiple of the denominators in lowest terms of the
/// slopes (time over charge) of all segments that begin below the full battery of their curve. It
/// is 1 where there is no curve.
///
/// `None` comes exactly where it is past `limit`. It takes no memory.
pub fn common_denominator(curves: &[Curve], limit: u64) -> Option<u64>
    ensures some { IfSome result (IsCommonDenominator curves.now) }
    ensures within { IfSome result (λ d. d ≤ limit) }
    ensures none { IfNone result
        ((d : ℕ) → IsCommonDenominator curves.now d → limit < d) }
{
    if limit == 0 {
        return None;
    }
    let mut common = 1;
    for curve in curves {
        let Some(next) = with_slopes(curve.points(), curve.full(), common, limit) else {
            return None;
        };
        common = next;
    }
    Some(common)
}

/// The least common multiple of `denominator` and of the reduced denominators of a curve's slopes.
fn with_slopes(points: &[(u64, u64)], full: u64, denominator: u64, limit: u64) -> Option<u64>
    requires rises { Rises points.now }
    requires positive { 0 < denominator }
    requires small { denominator ≤ limit }
    ensures some { IfSome result (λ d. (0 < d) × (d ≤ limit)
        × AreMultiples (λ e. (denominator ∣ e) × IsMultipleOfSlopes full points.now e) d) }
    ensures none { IfNone result
        (IsPast limit (λ e. (denominator ∣ e) × IsMultipleOfSlopes full points.now e)) }
{
    let mut common = denominator;
    for index in 0..points.len().saturating_sub(1) {
        let (from, to) = (points[index], points[index + 1]);
        if from.1 >= full {
            continue;
        }
        let Some(next) = with_slope(from, to, common, limit) else {
            return None;
        };
        common = next;
    }
    Some(common)
}

/// The least common multiple of `denominator` and of the reduced denominator of one slope.
fn with_slope(from: (u64, u64), to: (u64, u64), denominator: u64, limit: u64) -> Option<u64>
    requires later { from.0 < to.0 }
    requires higher { from.1 < to.1 }
    requires positive { 0 < denominator }
    ensures some { IfSome result (λ d. (0 < d) × (d ≤ limit)
        × AreMultiples (λ e. (denominator ∣ e) × IsMultipleOfSlope from to e) d) }
    ensures none { IfNone result
        (IsPast limit (λ e. (denominator ∣ e) × IsMultipleOfSlope from to e)) }
{
    let reduced = reduced_denominator(from, to);
    match lcm_below(denominator as u128, reduced as u128, limit as u128) {
        Some(common) => Some(common as u64),
        None => None,
    }
}

/// The denominator of a slope (time over charge) in lowest terms.
fn reduced_denominator(from: (u64, u64), to: (u64, u64)) -> u64
    requires later { from.0 < to.0 }
    requires higher { from.1 < to.1 }
    ensures positive { 0 < result }
    ensures exact { AreMultiples (IsMultipleOfSlope from to) result }
{
    let time = (to.0 - from.0) as u128;
    let charge = (to.1 - from.1) as u128;
    (charge / gcd(time, charge)) as u64
}
