//! Supporting points (level, time) in a slice.

ghost use Rattle.std.specs.Prelude.{◌≡◌, ◌↔◌, ◌+◌, ◌<◌, ◌≤◌, IsTrue, length};
ghost use Rattle.charge_curve.specs.Points.{ArePoints, last_level, slope, time_on};
ghost use Rattle.piece_fn.specs.Cuts.{are_points, from_piece, is_step, IsOnFirst};
ghost use Rattle.piece_fn.specs.PieceFn.{first_level};

/// Whether levels rise, times never fall, and each gap of times is a multiple of the gap of levels.
/// There is at least one point.
pub(crate) fn are_points(points: &[(u64, u64)]) -> bool
    ensures { result ≡ are_points points.now }
{
    if points.is_empty() {
        return false;
    }
    for index in 0..points.len() - 1 {
        if !is_step(points[index], points[index + 1]) {
            return false;
        }
    }
    true
}

/// Whether a point may follow another.
fn is_step(point: (u64, u64), next: (u64, u64)) -> bool
    ensures { result ≡ is_step point next }
{
    point.0 < next.0 && point.1 <= next.1 && (next.1 - point.1) % (next.0 - point.0) == 0
}

/// The last level.
pub(crate) fn last_level(points: &[(u64, u64)]) -> u64
    requires { ArePoints points.now }
    ensures { result ≡ last_level points.now }
{
    points[points.len() - 1].0
}

/// The points from the last one on that is not above a level, or all where the first is above it.
pub(crate) fn piece_at(points: &[(u64, u64)], level: u64) -> &[(u64, u64)]
    requires { ArePoints points.now }
    ensures { result.now ≡ from_piece level points.now }
{
    for index in 1..points.len() {
        if level < points[index].0 {
            return &points[index - 1..];
        }
    }
    &points[points.len() - 1..]
}

/// The time at a level that is not above the second point.
pub(crate) fn time_on_piece(points: &[(u64, u64)], level: u64) -> u64
    requires points { ArePoints points.now }
    requires first { IsOnFirst level points.now }
    ensures { result ≡ time_on points.now level }
{
    match points {
        [] => 0,
        [point] => point.1,
        [point, next, ..] => {
            if level <= point.0 {
                return point.1;
            }
            if level == next.0 {
                return next.1;
            }
            let slope = (next.1 - point.1) / (next.0 - point.0);
            point.1 + slope * (level - point.0)
        }
    }
}

/// The time at a level, which is that of the first level below it.
pub(crate) fn time_at(points: &[(u64, u64)], level: u64) -> u64
    requires { ArePoints points.now }
    ensures { result ≡ time_on points.now level }
{
    time_on_piece(piece_at(points, level), level)
}
