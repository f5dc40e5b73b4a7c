//! Whether one value covers another, by their supporting points alone.

ghost use Rattle.std.specs.Prelude.{◌≡◌, ◌+◌, nat_le};
ghost use Rattle.std.specs.List.{list_all};
ghost use Rattle.charge_curve.specs.Points.{ArePoints, last_level, time_on};
ghost use Rattle.piece_fn.specs.Cuts.{covers_at_points, IsOnFirst, point_is_reached, point_reaches};
ghost use Rattle.piece_fn.specs.PieceFn.{first_level};

use crate::points::{last_level, piece_at, time_on_piece};

/// Whether each level of the other value is reached, after `extra`. It walks both lists once from
/// each side, where the last levels and the least times allow it.
pub(crate) fn covers(own: &[(u64, u64)], other: &[(u64, u64)], extra: u64) -> bool
    requires own { ArePoints own.now }
    requires other { ArePoints other.now }
    ensures { result ≡ covers_at_points own.now other.now extra }
{
    if last_level(own) < last_level(other) {
        return false;
    }
    if !is_in_time(own[0].1, extra, other[0].1) {
        return false;
    }
    each_is_reached(own, other, extra) && each_reaches(own, other, extra)
}

/// Whether a time is no later than another, after `extra`.
pub(crate) fn is_in_time(time: u64, extra: u64, other: u64) -> bool
    ensures { result ≡ nat_le (time + extra) other }
{
    u128::from(time) + u128::from(extra) <= u128::from(other)
}

/// Whether each point of the other value is reached.
fn each_is_reached(own: &[(u64, u64)], other: &[(u64, u64)], extra: u64) -> bool
    requires own { ArePoints own.now }
    requires other { ArePoints other.now }
    ensures { result ≡ list_all (point_is_reached own.now extra) other.now }
{
    let mut rest = own;
    for point in other {
        rest = piece_at(rest, point.0);
        if !point_is_reached(rest, extra, *point) {
            return false;
        }
    }
    true
}

/// Whether each point of this value that is among the other's levels reaches the other's level
/// there.
fn each_reaches(own: &[(u64, u64)], other: &[(u64, u64)], extra: u64) -> bool
    requires own { ArePoints own.now }
    requires other { ArePoints other.now }
    ensures { result
        ≡ list_all (point_reaches (first_level other.now) (last_level other.now) other.now extra)
        own.now }
{
    let (low, high) = (other[0].0, last_level(other));
    let mut rest = other;
    for point in own {
        rest = piece_at(rest, point.0);
        if !point_reaches((low, high), rest, extra, *point) {
            return false;
        }
    }
    true
}

/// Whether a point of the other value is reached. The points are those of this value from its piece
/// on.
fn point_is_reached(own: &[(u64, u64)], extra: u64, point: (u64, u64)) -> bool
    requires own { ArePoints own.now }
    requires first { IsOnFirst point.0 own.now }
    ensures { result ≡ point_is_reached own.now extra point }
{
    match own {
        [] => is_in_time(0, extra, point.1),
        [last] => is_in_time(last.1, extra, point.1),
        [before, next, ..] => {
            if !is_in_time(before.1, extra, point.1) {
                return false;
            }
            if is_in_time(next.1, extra, point.1) {
                return true;
            }
            is_in_time(time_on_piece(own, point.0), extra, point.1)
        }
    }
}

/// Whether a point of this value reaches the other value's level there, if the other has that
/// level. The points are those of the other value from its piece on.
fn point_reaches(levels: (u64, u64), other: &[(u64, u64)], extra: u64, point: (u64, u64)) -> bool
    requires other { ArePoints other.now }
    requires first { IsOnFirst point.0 other.now }
    ensures { result ≡ point_reaches levels.0 levels.1 other.now extra point }
{
    if point.0 < levels.0 || levels.1 < point.0 {
        return true;
    }
    match other {
        [] => is_in_time(point.1, extra, 0),
        [last] => is_in_time(point.1, extra, last.1),
        [before, next, ..] => {
            if is_in_time(point.1, extra, before.1) {
                return true;
            }
            if !is_in_time(point.1, extra, next.1) {
                return false;
            }
            is_in_time(point.1, extra, time_on_piece(other, point.0))
        }
    }
}
