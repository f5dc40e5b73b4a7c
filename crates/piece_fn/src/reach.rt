//! How far one value covers another, from a level on.

ghost use Rattle.std.specs.Prelude.{◌≡◌, ◌↔◌, ◌+◌, ◌-◌, ◌<◌, ◌≤◌, ℕ, IsTrue, length, min, nat_le};
ghost use Rattle.charge_curve.specs.Points.{ArePoints, last_level, time_on};
ghost use Rattle.piece_fn.specs.Cuts.{IsBeforeSecond};
ghost use Rattle.piece_fn.specs.Reach.{IsStraightTo, LastsTo};
ghost use Rattle.piece_fn.specs.PieceFn.{first_level};

use crate::coverage::is_in_time;
use crate::points::{piece_at, time_on_piece};

/// The greatest level up to which each level of the other value is reached, from a level on that
/// is.
pub(crate) fn farthest(
    own: &[(u64, u64)],
    other: &[(u64, u64)],
    extra: u64,
    from: u64,
    end: u64,
) -> u64
    requires own { ArePoints own.now }
    requires other { ArePoints other.now }
    requires end { end ≡ min (last_level own.now) (last_level other.now) }
    requires from { from ≤ end }
    requires covered { time_on own.now from + extra ≤ time_on other.now from }
    ensures { LastsTo (time_on own.now) (time_on other.now) extra from end result }
{
    let (mut mine, mut its, mut low) = (own, other, from);
    while low < end {
        mine = piece_at(mine, low);
        its = piece_at(its, low);
        let high = next_bend(mine, low).min(next_bend(its, low));
        let last = lasts_to(mine, its, extra, low, high);
        if last < high {
            return last;
        }
        low = high;
    }
    low
}

/// The least level above `low` at which there is a point.
fn next_bend(points: &[(u64, u64)], low: u64) -> u64
    requires points { ArePoints points.now }
    requires low { low < last_level points.now }
    requires piece { IsBeforeSecond low points.now }
    ensures above { low < result }
    ensures within { result ≤ last_level points.now }
    ensures straight { IsStraightTo points.now low result }
{
    match points {
        [] => low,
        [point] => point.0,
        [point, next, ..] => { if low < point.0 { point.0 } else { next.0 } }
    }
}

/// The greatest level up to `high` to which coverage lasts from `low` on, where no point is
/// between.
fn lasts_to(own: &[(u64, u64)], other: &[(u64, u64)], extra: u64, low: u64, high: u64) -> u64
    requires own { ArePoints own.now }
    requires other { ArePoints other.now }
    requires order { low < high }
    requires own_straight { IsStraightTo own.now low high }
    requires other_straight { IsStraightTo other.now low high }
    requires covered { time_on own.now low + extra ≤ time_on other.now low }
    ensures { LastsTo (time_on own.now) (time_on other.now) extra low high result }
{
    if is_in_time(time_on_piece(own, high), extra, time_on_piece(other, high)) {
        return high;
    }
    let mine = time_on_piece(own, low);
    let its = time_on_piece(other, low);
    let mine_next = time_on_piece(own, low + 1);
    let its_next = time_on_piece(other, low + 1);
    let levels = (its - mine - extra) / ((mine_next - mine) - (its_next - its));
    low + levels
}
