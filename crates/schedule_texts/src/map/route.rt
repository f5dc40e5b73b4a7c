//! The lines of routes, and their rows above a map.

ghost use Rattle.std.specs.Prelude.{◌≡◌, ◌+◌, ◌*◌, ◌<◌, ◌≤◌, ◌^◌, ◌++◌, OnOk};
ghost use Rattle.ev_text.specs.Texts.{joined_texts};
ghost use Rattle.schedule_texts.specs.Maps.{IsMapScale, corner_text, point_text, route_line, route_signs, row_text, rows_text, visit_corner};

use crate::decimals::push_decimal;
use crate::map::scale::{MapScale, Spot, spot_of};
use crate::map::sign::{colour_of, push_disc, push_signs};
use place_names::Place;
use plan_schedule::{RouteSchedule, Visit};
use report_lines::{push_numbered, push_word};
use std::alloc::{AllocError, Global};

/// Appends the lines of routes.
pub(crate) fn push_lines(
    alloc: Global,
    out: &mut Vec<u8>,
    m: MapScale,
    places: &[Place],
    routes: &[RouteSchedule],
) -> Result<(), AllocError>
    requires { IsMapScale m }
    ensures { OnOk result (out.new.items
        ≡ out.old.items ++ joined_texts (route_line m places.now) routes.now) }
{
    for route in routes {
        push_line(alloc, out, m, places, route)?;
    }
    Ok(())
}

/// Appends the line of a route.
fn push_line(
    alloc: Global,
    out: &mut Vec<u8>,
    m: MapScale,
    places: &[Place],
    route: &RouteSchedule,
) -> Result<(), AllocError>
    requires { IsMapScale m }
    ensures { OnOk result (out.new.items ≡ out.old.items ++ route_line m places.now route.now) }
{
    push_word(out, b"<polyline class='w' stroke='")?;
    push_word(out, colour_of(route.number))?;
    push_word(out, b"' points='")?;
    push_corners(alloc, out, m, places, route.visits.as_slice())?;
    push_word(out, b"'/>\n")?;
    Ok(())
}

/// Appends the corners of the line of a route.
fn push_corners(
    alloc: Global,
    out: &mut Vec<u8>,
    m: MapScale,
    places: &[Place],
    visits: &[Visit],
) -> Result<(), AllocError>
    requires { IsMapScale m }
    ensures { OnOk result (out.new.items
        ≡ out.old.items ++ joined_texts (visit_corner m places.now) visits.now) }
{
    for visit in visits {
        push_corner(alloc, out, spot_of(m, places, visit.node))?;
    }
    Ok(())
}

/// Appends a corner, where there is one.
fn push_corner(alloc: Global, out: &mut Vec<u8>, spot: Option<Spot>) -> Result<(), AllocError>
    ensures { OnOk result (out.new.items ≡ out.old.items ++ corner_text spot) }
{
    let Some(Spot { x, y }) = spot else {
        return Ok(());
    };
    push_point(alloc, out, x, y)
}

/// Appends a point of a line.
fn push_point(alloc: Global, out: &mut Vec<u8>, x: u128, y: u128) -> Result<(), AllocError>
    ensures { OnOk result (out.new.items ≡ out.old.items ++ point_text x y) }
{
    let point = format!(in alloc; "{x},{y} ")?;
    out.extend_from_slice(point.as_bytes())
}

/// Appends the signs of all vehicles.
pub(crate) fn push_all_signs(
    alloc: Global,
    out: &mut Vec<u8>,
    m: MapScale,
    places: &[Place],
    routes: &[RouteSchedule],
) -> Result<(), AllocError>
    requires { IsMapScale m }
    ensures { OnOk result (out.new.items
        ≡ out.old.items ++ joined_texts (route_signs m places.now) routes.now) }
{
    for route in routes {
        push_signs(alloc, out, m, places, route.number, route.visits.as_slice())?;
    }
    Ok(())
}

/// Appends the rows of routes.
pub(crate) fn push_rows(
    alloc: Global,
    out: &mut Vec<u8>,
    denominator: u64,
    routes: &[RouteSchedule],
) -> Result<(), AllocError>
    requires { 1 ≤ denominator }
    ensures { OnOk result
        (out.new.items ≡ out.old.items ++ rows_text denominator 0 routes.now) }
{
    for (at, route) in routes.iter().enumerate() {
        push_row(alloc, out, denominator, 700 + 220 * at as u128, route)?;
    }
    Ok(())
}

/// Appends the row of a route at a height: its sign, and what it does.
fn push_row(
    alloc: Global,
    out: &mut Vec<u8>,
    denominator: u64,
    y: u128,
    route: &RouteSchedule,
) -> Result<(), AllocError>
    requires some { 1 ≤ denominator }
    requires small { y < 2 ^ 81 }
    ensures { OnOk result (out.new.items ≡ out.old.items ++ row_text denominator y route.now) }
{
    push_word(out, b"<path class='w' stroke='")?;
    push_word(out, colour_of(route.number))?;
    push_numbered(alloc, out, b"' d='M800 ", y)?;
    push_word(out, b"h500'/>")?;
    push_disc(alloc, out, route.number, 1050, y)?;
    push_numbered(alloc, out, b"<text x='1450' y='", y + 40)?;
    push_numbered(alloc, out, b"'>route ", route.number as u128)?;
    push_numbered(alloc, out, b": stops ", route.totals.stops)?;
    push_word(out, b", time ")?;
    push_decimal(alloc, out, denominator, route.totals.time)?;
    push_numbered(
        alloc,
        out,
        b", energy charged ",
        route.totals.energy_charged,
    )?;
    push_word(out, b"</text>\n")?;
    Ok(())
}
