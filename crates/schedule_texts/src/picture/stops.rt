//! The shapes of stops.

ghost use Rattle.std.specs.Prelude.{◌≡◌, ◌≤◌, ◌++◌, OnOk};
ghost use Rattle.schedule_texts.specs.Scales.{IsScale};
ghost use Rattle.schedule_texts.specs.Shapes.{circle_text, diamond_text, kind_words, place_text, shape_end, shape_text, square_text, stop_text, stops_text, title_text};

use crate::clock::push_moment;
use crate::labels::push_name_words;
use crate::picture::scale::{Scale, x_at, y_at};
use place_names::Place;
use plan_schedule::{PlaceKind, Visit};
use report_lines::{push_numbered, push_word};
use std::alloc::{AllocError, Global};

/// Appends the shape of each visit, where the vehicle arrives: a diamond is the depot, a circle a
/// customer, a square a station.
pub(crate) fn push_stops(
    alloc: Global,
    out: &mut Vec<u8>,
    scale: Scale,
    places: &[Place],
    visits: &[Visit],
) -> Result<(), AllocError>
    requires { IsScale scale }
    ensures { OnOk result
        (out.new.items ≡ out.old.items ++ stops_text scale places.now 0 visits.now) }
{
    for (at, visit) in visits.iter().enumerate() {
        push_stop(alloc, out, scale, places, at, visit)?;
    }
    Ok(())
}

/// Appends the shape of a visit, with what a pointer at it is told.
fn push_stop(
    alloc: Global,
    out: &mut Vec<u8>,
    scale: Scale,
    places: &[Place],
    at: usize,
    visit: &Visit,
) -> Result<(), AllocError>
    requires { IsScale scale }
    ensures { OnOk result
        (out.new.items ≡ out.old.items ++ stop_text scale places.now at visit.now) }
{
    let x = x_at(scale, visit.arrival as u128);
    let y = y_at(scale, visit.level);
    push_shape(alloc, out, visit.kind, x, y)?;
    push_title(alloc, out, scale, places, at, visit)?;
    out.extend_from_slice(shape_end(visit.kind))
}

/// Appends how the element of a shape begins.
fn push_shape(
    alloc: Global,
    out: &mut Vec<u8>,
    kind: PlaceKind,
    x: u128,
    y: u128,
) -> Result<(), AllocError>
    ensures { OnOk result (out.new.items ≡ out.old.items ++ shape_text kind x y) }
{
    match kind {
        PlaceKind::Depot => push_diamond(alloc, out, x, y.saturating_sub(70)),
        PlaceKind::Customer => push_circle(alloc, out, x, y),
        PlaceKind::Station => {
            push_square(alloc, out, x.saturating_sub(50), y.saturating_sub(50))
        }
    }
}

/// Appends how the element of a diamond begins, its top at a point.
fn push_diamond(alloc: Global, out: &mut Vec<u8>, x: u128, top: u128) -> Result<(), AllocError>
    ensures { OnOk result (out.new.items ≡ out.old.items ++ diamond_text x top) }
{
    push_numbered(alloc, out, b"<path class='d' d='M", x)?;
    push_numbered(alloc, out, b" ", top)?;
    push_word(out, b"l70 70l-70 70l-70 -70z'>")?;
    Ok(())
}

/// Appends how the element of a circle begins, its middle at a point.
fn push_circle(alloc: Global, out: &mut Vec<u8>, x: u128, y: u128) -> Result<(), AllocError>
    ensures { OnOk result (out.new.items ≡ out.old.items ++ circle_text x y) }
{
    push_numbered(alloc, out, b"<circle class='p' cx='", x)?;
    push_numbered(alloc, out, b"' cy='", y)?;
    push_word(out, b"' r='50'>")?;
    Ok(())
}

/// Appends how the element of a square begins, its left upper corner at a point.
fn push_square(alloc: Global, out: &mut Vec<u8>, left: u128, top: u128) -> Result<(), AllocError>
    ensures { OnOk result (out.new.items ≡ out.old.items ++ square_text left top) }
{
    push_numbered(alloc, out, b"<rect class='s' x='", left)?;
    push_numbered(alloc, out, b"' y='", top)?;
    push_word(out, b"' width='100' height='100'>")?;
    Ok(())
}

/// How the element of a shape ends.
fn shape_end(kind: PlaceKind) -> &'static [u8]
    ensures { result.now ≡ shape_end kind }
{
    match kind {
        PlaceKind::Depot => b"</path>\n",
        PlaceKind::Customer => b"</circle>\n",
        PlaceKind::Station => b"</rect>\n",
    }
}

/// Appends the title of a visit.
fn push_title(
    alloc: Global,
    out: &mut Vec<u8>,
    scale: Scale,
    places: &[Place],
    at: usize,
    visit: &Visit,
) -> Result<(), AllocError>
    requires { IsScale scale }
    ensures { OnOk result
        (out.new.items ≡ out.old.items ++ title_text scale places.now at visit.now) }
{
    push_numbered(alloc, out, b"<title>stop ", at as u128)?;
    push_place(alloc, out, places, visit)?;
    push_word(out, b", arrival ")?;
    push_moment(
        alloc,
        out,
        scale.clock,
        false,
        scale.denominator,
        visit.arrival,
    )?;
    push_numbered(alloc, out, b", level ", visit.level as u128)?;
    push_word(out, b"</title>")?;
    Ok(())
}

/// Appends what a node is, and its number.
pub(crate) fn push_place(
    alloc: Global,
    out: &mut Vec<u8>,
    places: &[Place],
    visit: &Visit,
) -> Result<(), AllocError>
    ensures { OnOk result (out.new.items ≡ out.old.items ++ place_text places.now visit.now) }
{
    push_numbered(alloc, out, kind_words(visit.kind), visit.node as u128)?;
    push_name_words(out, places, visit.node)
}

/// The words between the number of a stop and that of its node.
fn kind_words(kind: PlaceKind) -> &'static [u8]
    ensures { result.now ≡ kind_words kind }
{
    match kind {
        PlaceKind::Depot => b": depot ",
        PlaceKind::Customer => b": customer ",
        PlaceKind::Station => b": station ",
    }
}
