//! Why breakpoints are no charging curve.

ghost use Rattle.std.specs.Prelude.{◌≡◌, ◌+◌, ◌*◌, ◌<◌, ◌≤◌, ◌^◌, length, IsTrue, drop};
ghost use Rattle.std.specs.List.{All};
ghost use Rattle.charge_curve.specs.CutCurve.{IsSmall};
ghost use Rattle.charge_curve.specs.Faults.{curve_fault, end_fault, first_fall, first_faster, has_start, is_no_faster, rises};
ghost use Rattle.ev_model.specs.Curve.{last_charge};

use thiserror::Error;

/// The first broken rule of a curve. Indices are those of breakpoints, from 0.
#[derive(Clone, Copy, Debug, Drop, PartialEq, Eq, Error)]
pub enum CurveFault {
    /// There are fewer than two breakpoints, or the first isn't empty at time 0.
    #[error("the curve does not begin at time 0 and charge 0")]
    Start,
    /// The time or the charge of this breakpoint isn't greater than the one before.
    #[error("breakpoint {index} does not rise above the one before")]
    Rise { index: usize },
    /// The segment that ends at this breakpoint is faster than the segment before it.
    #[error("the segment to breakpoint {index} is faster than the one before")]
    Concave { index: usize },
    /// The last charge is below a full battery.
    #[error("the curve ends at {last}, below a full battery")]
    Short { last: u64 },
    /// There are more than 32 breakpoints.
    #[error("there are more than 32 breakpoints")]
    TooMany,
    /// Memory was refused.
    #[error("out of memory")]
    Memory,
}

/// The most breakpoints of a curve.
const MOST_BREAKPOINTS: usize = 32;

/// The first broken rule of breakpoints (time, charge), if any, for a battery of `full`.
pub(crate) fn first_fault(points: &[(u64, u64)], full: u64) -> Option<CurveFault>
    requires { IsSmall points.now full }
    ensures { result ≡ curve_fault full points.now }
{
    if !begins_empty(points) {
        return Some(CurveFault::Start);
    }
    if let Some(index) = fall(points) {
        return Some(CurveFault::Rise { index });
    }
    if let Some(index) = faster(points) {
        return Some(CurveFault::Concave { index });
    }
    let last = charge_at_end(points);
    if last < full {
        return Some(CurveFault::Short { last });
    }
    if points.len() <= MOST_BREAKPOINTS {
        None
    } else {
        Some(CurveFault::TooMany)
    }
}

fn begins_empty(points: &[(u64, u64)]) -> bool
    ensures { result ≡ has_start points.now }
{
    match points {
        [] | [_] => false,
        [first, ..] => first.0 == 0 && first.1 == 0,
    }
}

/// The first breakpoint that does not rise above the one before.
fn fall(points: &[(u64, u64)]) -> Option<usize>
    ensures { result ≡ first_fall 1 points.now }
{
    for index in 0..points.len().saturating_sub(1) {
        let (before, here) = (points[index], points[index + 1]);
        if !is_rise(before, here) {
            return Some(index + 1);
        }
    }
    None
}

/// Whether both time and charge are greater at `q` than at `p`.
fn is_rise(p: (u64, u64), q: (u64, u64)) -> bool
    ensures { result ≡ rises p q }
{
    p.0 < q.0 && p.1 < q.1
}

/// The first breakpoint whose segment is faster than the segment before it.
fn faster(points: &[(u64, u64)]) -> Option<usize>
    requires times { All (λ p. p.0 ≤ 10 ^ 9) points.now }
    requires charges { All (λ p. p.1 ≤ 10 ^ 9) points.now }
    ensures { result ≡ first_faster 2 points.now }
{
    for index in 0..points.len().saturating_sub(2) {
        if !no_faster(points[index], points[index + 1], points[index + 2]) {
            return Some(index + 2);
        }
    }
    None
}

/// Whether the segment from `q` to `r` takes at least as long for a unit of charge as that from `p`
/// to `q`.
fn no_faster(p: (u64, u64), q: (u64, u64), r: (u64, u64)) -> bool
    requires q_time { q.0 ≤ 10 ^ 9 }
    requires q_charge { q.1 ≤ 10 ^ 9 }
    requires r_time { r.0 ≤ 10 ^ 9 }
    requires r_charge { r.1 ≤ 10 ^ 9 }
    ensures { result ≡ is_no_faster p q r }
{
    let earlier = q.0.saturating_sub(p.0) * r.1.saturating_sub(q.1);
    let later = r.0.saturating_sub(q.0) * q.1.saturating_sub(p.1);
    earlier <= later
}

#[tactic(auto, using(crate::proofs::Accepted::last_charge_at))]
/// The charge of the last breakpoint.
fn charge_at_end(points: &[(u64, u64)]) -> u64
    ensures { result ≡ last_charge points.now }
{
    if points.is_empty() {
        return 0;
    }
    points[points.len() - 1].1
}
