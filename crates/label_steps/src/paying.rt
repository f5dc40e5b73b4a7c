//! From which levels of a value charging pays.

ghost use Rattle.std.specs.Prelude.{◌≡◌, ◌+◌, ◌-◌, ◌<◌, ◌≤◌, ◌∷◌, ℕ, [], None, IfOk, IfSome};
ghost use Rattle.std.specs.List.{All};
ghost use Rattle.charge_curve.specs.Points.{ArePoints, last_level, time_on};
ghost use Rattle.charge_curve.specs.Scaled.{IsScaledCurve};
ghost use Rattle.dominance.specs.Coverage.{CoversEach, SomeReaches};
ghost use Rattle.dominance.specs.LevelTimes.{IsLevel, LevelTimes, time_at};
ghost use Rattle.dominance.specs.Steps.{IsCharge, IsChargeFrom};
ghost use Rattle.label_steps.specs.Paying.{AreCharged, is_sooner, paying, pays};
ghost use Rattle.piece_fn.specs.PieceFn.{level_times};

use charge_curve::Scaled;
use dominance::LabelValue;
use piece_fn::PieceFn;
use std::alloc::{AllocError, Global};

/// A value, and then what becomes of it by charging from each of its points from which that pays.
pub(crate) fn charged_where_it_pays(
    alloc: Global,
    value: PieceFn,
    curve: &Scaled,
    limit: u64,
) -> Result<Vec<PieceFn>, AllocError>
    requires levels { (level : ℕ) → IsLevel (level_times value) level →
        level ≤ last_level curve.now }
    requires times { (level : ℕ) → IsLevel (level_times value) level →
        time_at (level_times value) level ≤ limit }
    ensures answers { IfOk result (λ values. AreCharged value curve.now limit
        (paying curve.now None value) values.items) }
    ensures starts { IfOk result (λ values. All (λ start. IsLevel (level_times value) start.0)
        (paying curve.now None value)) }
    ensures keeps { IfOk result (λ values. (other : LevelTimes) (extra level time : ℕ) →
        CoversEach (level_times value) other extra →
        IsCharge other curve.now limit level time →
        SomeReaches level_times values.items extra level time) }
{
    let full = full_level(curve);
    let starts = paying_points(alloc, value.points(), curve, full)?;
    let mut values = Vec::with_capacity(alloc, starts.len() + 1)?;
    values.push(value)?;
    for start in &starts {
        let after = charge_from(alloc, *start, curve, limit)?;
        values.push(after)?;
    }
    Ok(values)
}

/// What becomes of one point of a value by charging, up to a full battery or the limit.
fn charge_from(
    alloc: Global,
    point: (u64, u64),
    curve: &Scaled,
    limit: u64,
) -> Result<PieceFn, AllocError>
    requires fits { point.0 ≤ last_level curve.now }
    requires in_time { point.1 ≤ limit }
    ensures { IfOk result (λ after. IsChargeFrom (level_times (point ∷ [])) curve.now limit point.0
        (level_times after)) }
{
    let value = PieceFn::point(alloc, point.0, point.1);
    value.charge_from(point.0, curve, limit)
}

/// The points of a value from which charging pays, in rising order.
fn paying_points(
    alloc: Global,
    points: &[(u64, u64)],
    curve: &Scaled,
    full: u64,
) -> Result<Vec<(u64, u64)>, AllocError>
    requires points { ArePoints points.now }
    requires full { full ≡ last_level curve.now }
    requires fits { last_level points.now ≤ full }
    ensures { IfOk result (λ starts. starts.items ≡ paying curve.now None points.now) }
{
    let mut starts = Vec::new(alloc);
    let mut before = None;
    for index in 0..points.len() {
        if pays(&points[index..], curve, full, before) {
            starts.push(points[index])?;
            before = Some(points[index]);
        }
    }
    Ok(starts)
}

/// Whether charging pays from the first of these points, which are the last ones of a value.
/// `before` is the last point before them from which it does.
fn pays(points: &[(u64, u64)], curve: &Scaled, full: u64, before: Option<(u64, u64)>) -> bool
    requires points { ArePoints points.now }
    requires full { full ≡ last_level curve.now }
    requires fits { last_level points.now ≤ full }
    requires before { IfSome before (λ b. b.0 ≤ full) }
    ensures { result ≡ pays curve.now before points.now }
{
    match points {
        [] => false,
        [point] => point.0 < full && is_sooner(*point, curve, before),
        [point, next, ..] => {
            let unit = (next.1 - point.1) / (next.0 - point.0);
            is_sooner(*point, curve, before) && unit_time(curve, full, point.0) <= unit
        }
    }
}

/// How long charging takes from a level to the next, in scaled time. It takes no memory.
pub fn unit_time(curve: &Scaled, full: u64, level: u64) -> u64
    requires full { full ≡ last_level curve.now }
    requires fits { level < full }
    ensures { result ≡ time_on curve.now (level + 1) - time_on curve.now level }
{
    curve
        .time_to(level + 1)
        .saturating_sub(curve.time_to(level))
}

/// Whether charging to one level ends sooner from a point than from another before it, if there is
/// one.
fn is_sooner(point: (u64, u64), curve: &Scaled, before: Option<(u64, u64)>) -> bool
    requires fits { point.0 ≤ last_level curve.now }
    requires before { IfSome before (λ b. b.0 ≤ last_level curve.now) }
    ensures { result ≡ is_sooner curve.now before point }
{
    let Some(earlier) = before else {
        return true;
    };
    let own = u128::from(point.1) + u128::from(curve.time_to(earlier.0));
    let other = u128::from(earlier.1) + u128::from(curve.time_to(point.0));
    own < other
}

/// The level of a full battery on a curve. It takes no memory.
pub fn full_level(curve: &Scaled) -> u64
    ensures value { result ≡ last_level curve.now }
    ensures curve { IsScaledCurve curve.now }
{
    let breaks = curve.breaks();
    breaks[breaks.len() - 1].0
}
