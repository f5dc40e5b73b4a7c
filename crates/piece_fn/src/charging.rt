//! Parts of values and curves, moved and cut: what is left after an arc or a charge.

ghost use Rattle.std.specs.Prelude.{◌≡◌, ◌↔◌, ◌+◌, ◌-◌, ◌<◌, ◌≤◌, ◌∷◌, ◌++◌, [], IfOk, OnOk, drop, max};
ghost use Rattle.charge_curve.specs.Points.{ArePoints, last_level, time_on};
ghost use Rattle.piece_fn.specs.Cuts.{AreAbove, begun_at, between, cut_end, from_piece, moved, supports, tail_to, up_to};
ghost use Rattle.piece_fn.specs.PieceFn.{first_level, starts};

use crate::points::{piece_at, time_on_piece};
use smallvec::SmallVec;
use std::alloc::{AllocError, Global};

/// How many points a value keeps without an allocation.
pub(crate) const INLINE_POINTS: usize = 4;

/// The supporting points of a value.
pub(crate) type Points = SmallVec<(u64, u64), INLINE_POINTS>;

/// Where points are moved to.
#[derive(Clone, Copy)]
pub(crate) struct Move {
    /// By how much each level falls.
    pub down: u64,
    /// The time that becomes `base`.
    pub zero: u64,
    /// What `zero` becomes.
    pub base: u64,
}

/// The points from the level `from` on, moved, up to the last level within the limit.
pub(crate) fn carried(
    alloc: Global,
    points: &[(u64, u64)],
    from: u64,
    by: Move,
    limit: u64,
) -> Result<Points, AllocError>
    requires points { ArePoints points.now }
    requires from { from ≤ last_level points.now }
    requires down { by.down ≤ max from (first_level points.now) }
    requires early { by.zero ≤ time_on points.now from }
    requires limit { by.base + (time_on points.now from - by.zero) ≤ limit }
    ensures { IfOk result (λ v. v.items
        ≡ up_to limit
        (moved by.down by.zero by.base (begun_at from (from_piece from points.now)))) }
{
    let rest = piece_at(points, from);
    let first = (
        from.max(rest[0].0) - by.down,
        by.base + (time_on_piece(rest, from) - by.zero),
    );
    let mut carried = Points::new(alloc);
    carried.push(first)?;
    push_moved(&mut carried, first, rest, by, limit)?;
    Ok(carried)
}

/// Appends the points after the first, moved, up to the last level within the limit. `first` stands
/// in the place of the first and is moved already.
fn push_moved(
    points: &mut Points,
    first: (u64, u64),
    rest: &[(u64, u64)],
    by: Move,
    limit: u64,
) -> Result<(), AllocError>
    requires points { ArePoints (first ∷ moved by.down by.zero by.base (drop 1 rest.now)) }
    requires above { AreAbove by.down by.zero (drop 1 rest.now) }
    requires limit { first.1 ≤ limit }
    ensures { OnOk result (points.new.items
        ≡ points.old.items
        ++ tail_to limit first (moved by.down by.zero by.base (drop 1 rest.now))) }
{
    let mut last = first;
    for index in 1..rest.len() {
        let next = rest[index];
        let level = next.0 - by.down;
        let time = u128::from(by.base) + u128::from(next.1 - by.zero);
        if time > u128::from(limit) {
            return push_end(points, last, (level, time), limit);
        }
        last = (level, time as u64);
        points.push(last)?;
    }
    Ok(())
}

/// Appends the last level within the limit on the piece from `last` to `next`, where it is above
/// `last`.
fn push_end(
    points: &mut Points,
    last: (u64, u64),
    next: (u64, u128),
    limit: u64,
) -> Result<(), AllocError>
    requires points { ArePoints (last ∷ next ∷ []) }
    requires within { last.1 ≤ limit }
    requires past { limit < next.1 }
    ensures { OnOk result (points.new.items ≡ points.old.items ++ cut_end limit last next) }
{
    let slope = (next.1 - u128::from(last.1)) / u128::from(next.0 - last.0);
    let levels = u128::from(limit - last.1) / slope;
    if levels > 0 {
        points.push((last.0 + levels as u64, last.1 + (slope * levels) as u64))?;
    }
    Ok(())
}

/// The levels of a value, in rising order, at which it or the curve has a supporting point.
pub(crate) fn starts(
    alloc: Global,
    points: &[(u64, u64)],
    curve: &[(u64, u64)],
) -> Result<Vec<u64>, AllocError>
    requires points { ArePoints points.now }
    requires curve { ArePoints curve.now }
    ensures { IfOk result (λ levels. levels.items ≡ starts points.now curve.now) }
{
    let mut levels = Vec::new(alloc);
    for index in 0..points.len() - 1 {
        levels.push(points[index].0)?;
        push_between(&mut levels, curve, points[index].0, points[index + 1].0)?;
    }
    levels.push(points[points.len() - 1].0)?;
    Ok(levels)
}

/// Appends the levels of the points between two levels.
fn push_between(
    levels: &mut Vec<u64>,
    points: &[(u64, u64)],
    low: u64,
    high: u64,
) -> Result<(), AllocError>
    ensures { OnOk result (levels.new.items ≡ levels.old.items ++ between low high points.now) }
{
    for point in points {
        if low < point.0 && point.0 < high {
            levels.push(point.0)?;
        }
    }
    Ok(())
}
