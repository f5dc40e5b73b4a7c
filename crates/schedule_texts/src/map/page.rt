//! The page of a map.

ghost use Rattle.std.specs.Prelude.{◌≡◌, ◌≤◌, ◌++◌, IfOk, OnOk, option_map};
ghost use Rattle.schedule_texts.specs.Maps.{IsMapScale, map_style, map_text, page_text};
ghost use Rattle.schedule_texts.specs.Options.{AreTimed};

use crate::map::place::{push_depot, push_places};
use crate::map::route::{push_all_signs, push_lines, push_rows};
use crate::map::scale::{MapScale, map_scale, spot_of};
use crate::picture::push_size;
use place_names::Place;
use plan_schedule::{RouteSchedule, Schedule};
use report_lines::push_word;
use std::alloc::{AllocError, Global};

/// The colours and the type, the title, and what the marks are.
const STYLE: &[u8] = b"<style>text{font-family:Helvetica,Arial,sans-serif;font-size:120px;\
fill:#222222}.k{font-size:180px;font-weight:bold}\
.m{font-size:110px;paint-order:stroke;stroke:#ffffff;stroke-width:24}\
.w{fill:none;stroke-width:30;stroke-linejoin:round;stroke-opacity:0.75}\
.q{font-size:110px;font-weight:bold;fill:#ffffff;text-anchor:middle}\
.t{font-size:110px;font-weight:bold;text-anchor:middle}\
.s{fill:#e69f00;stroke-width:26}.o{fill:#ffffff;stroke-width:26}\
.u{fill:#9a9a9a}.d{fill:#222222;stroke:#ffffff;stroke-width:20}</style>\n\
<rect width='100%' height='100%' fill='#ffffff'/>\n\
<text class='k' x='800' y='320'>Routes</text>\n\
<path class='d' d='M1870 150l110 110l-110 110l-110 -110z'/>\
<text x='2050' y='300'>depot</text>\
<path class='s' stroke='#222222' d='M2705 165h190v190h-190z'/>\
<text x='2960' y='300'>a vehicle charges</text>\n";

/// The schedule as a map in SVG: a line for each route between the places where it stops, by their
/// coordinates, in a colour of its vehicle, whose number stands at each stop, in a square where it
/// charges; the depot, and the names of all places. A place without coordinates is left out.
/// Without a plan the places stand alone. The only refusal is want of memory.
pub fn schedule_map(
    alloc: Global,
    schedule: Option<&Schedule>,
    places: &[Place],
) -> Result<Vec<u8>, AllocError>
    requires { AreTimed (option_map (λ s. s.now) schedule) }
    ensures { IfOk result (λ text. text.items
        ≡ map_text places.now (option_map (λ s. s.now) schedule.entry)) }
{
    let mut out = Vec::new(alloc);
    match schedule {
        Some(schedule) => {
            let m = map_scale(places, schedule.routes.len());
            let routes = schedule.routes.as_slice();
            push_page(alloc, &mut out, m, schedule.denominator, places, routes)?
        }
        None => push_page(alloc, &mut out, map_scale(places, 0), 1, places, &[])?,
    }
    Ok(out)
}

/// Appends the page of routes.
fn push_page(
    alloc: Global,
    out: &mut Vec<u8>,
    m: MapScale,
    denominator: u64,
    places: &[Place],
    routes: &[RouteSchedule],
) -> Result<(), AllocError>
    requires scale { IsMapScale m }
    requires some { 1 ≤ denominator }
    ensures { OnOk result
        (out.new.items ≡ out.old.items ++ page_text m denominator places.now routes.now) }
{
    push_size(alloc, out, m.across.max(7000) + 3500, m.head + m.down + 700)?;
    push_map_style(out)?;
    push_rows(alloc, out, denominator, routes)?;
    push_lines(alloc, out, m, places, routes)?;
    push_places(alloc, out, m, places)?;
    push_all_signs(alloc, out, m, places, routes)?;
    push_depot(alloc, out, spot_of(m, places, 0))?;
    push_word(out, b"</svg>\n")?;
    Ok(())
}

/// Appends the colours and the type, the title, and what the marks are.
fn push_map_style(out: &mut Vec<u8>) -> Result<(), AllocError>
    ensures { OnOk result (out.new.items ≡ out.old.items ++ map_style) }
{
    push_word(out, STYLE)
}
