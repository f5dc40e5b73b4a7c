//! Where places stand on a map.

ghost use Rattle.std.specs.Prelude.{◌≡◌, ◌≤◌, ◌<◌, ◌^◌, IfSome, length};
ghost use Rattle.schedule_texts.specs.Maps.{IsMapScale, IsSpot, bounds_with, map_scale, no_bounds, point_in, scale_by, span_of, spot_at, spot_by, spot_of, widened};

use place_names::{Place, Point};

/// The least and the greatest coordinates of points.
#[derive(Clone, Copy)]
struct Bounds {
    left: u64,
    right: u64,
    bottom: u64,
    top: u64,
}

/// The scale of a map.
#[derive(Clone, Copy)]
pub(crate) struct MapScale {
    /// The least coordinate to the right, and the greatest one upwards.
    pub left: u64,
    pub top: u64,
    /// So many units of the coordinates are as long as a side.
    pub span: u64,
    pub side: u64,
    /// Where the map begins, from the top of the page.
    pub head: u128,
    /// How wide and how high it is.
    pub across: u128,
    pub down: u128,
}

/// A point of the page.
#[derive(Clone, Copy)]
pub(crate) struct Spot {
    pub x: u128,
    pub y: u128,
}

/// The scale of a map of places below so many rows.
pub(crate) fn map_scale(places: &[Place], rows: usize) -> MapScale
    ensures value { result ≡ map_scale places.now rows }
    ensures scale { IsMapScale result }
{
    scale_by(bounds_of(places), places.len(), rows)
}

/// The same by the bounds of so many places.
#[tactic(auto, using(crate::proofs::Spans::spans))]
fn scale_by(b: Bounds, places: usize, rows: usize) -> MapScale
    ensures value { result ≡ scale_by b places rows }
    ensures scale { IsMapScale result }
{
    let span = span_of(b);
    let side = 200 * places.clamp(50, 200) as u64;
    let across = b.right.saturating_sub(b.left) as u128 * side as u128 / span as u128;
    let down = b.top.saturating_sub(b.bottom) as u128 * side as u128 / span as u128;
    MapScale {
        left: b.left,
        top: b.top,
        span,
        side,
        head: 1300 + 220 * rows as u128,
        across,
        down,
    }
}

/// The greater one of how wide and how high bounds are.
fn span_of(b: Bounds) -> u64
    ensures value { result ≡ span_of b }
    ensures some { 1 ≤ result }
{
    let across = b.right.saturating_sub(b.left);
    across.max(b.top.saturating_sub(b.bottom)).max(1)
}

/// The bounds of the points of places.
fn bounds_of(places: &[Place]) -> Bounds
    ensures { result ≡ bounds_with no_bounds places.now }
{
    let mut b = Bounds {
        left: u64::MAX,
        right: 0,
        bottom: u64::MAX,
        top: 0,
    };
    for place in places {
        b = widened(b, place.point);
    }
    b
}

/// Bounds that hold a point as well.
fn widened(b: Bounds, point: Option<Point>) -> Bounds
    ensures { result ≡ widened b point }
{
    match point {
        Some(point) => Bounds {
            left: b.left.min(point.x),
            right: b.right.max(point.x),
            bottom: b.bottom.min(point.y),
            top: b.top.max(point.y),
        },
        None => b,
    }
}

/// Where a point stands.
#[tactic(auto, using(crate::proofs::Spans::spans))]
fn spot_at(m: MapScale, point: Point) -> Spot
    requires { IsMapScale m }
    ensures value { result ≡ spot_at m point }
    ensures spot { IsSpot result }
{
    let right = point.x.saturating_sub(m.left) as u128 * m.side as u128;
    let down = m.top.saturating_sub(point.y) as u128 * m.side as u128;
    Spot {
        x: 800 + right / m.span as u128,
        y: m.head + down / m.span as u128,
    }
}

/// Where a point stands, if there is one.
pub(crate) fn spot_by(m: MapScale, point: Option<Point>) -> Option<Spot>
    requires { IsMapScale m }
    ensures value { result ≡ spot_by m point }
    ensures spot { IfSome result IsSpot }
{
    match point {
        Some(point) => Some(spot_at(m, point)),
        None => None,
    }
}

/// Where a node stands, if it is known where it is.
pub(crate) fn spot_of(m: MapScale, places: &[Place], node: usize) -> Option<Spot>
    requires { IsMapScale m }
    ensures value { result ≡ spot_of m places.now node }
    ensures spot { IfSome result IsSpot }
{
    match places.get(node) {
        Some(place) => spot_by(m, place.point),
        None => None,
    }
}
