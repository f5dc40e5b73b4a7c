//! The page of a picture.

ghost use Rattle.std.specs.Prelude.{◌≡◌, ◌<◌, ◌^◌, ◌++◌, IfOk, OnOk, Some, option_map};
ghost use Rattle.schedule_texts.specs.Clocks.{AreClocks};
ghost use Rattle.schedule_texts.specs.Options.{AreTimed};
ghost use Rattle.plan_schedule.specs.Schedules.{IsTimed};
ghost use Rattle.schedule_texts.specs.Pictures.{head_text, legend_text, none_text, page_text, picture_text, routes_text, size_text, style_text};
ghost use Rattle.schedule_texts.specs.Scales.{IsScale};

use crate::clock::Clock;
use crate::picture::panel::push_panels;
use crate::picture::scale::{Scale, scale_of};
use place_names::Place;
use plan_schedule::{RouteSchedule, Schedule};
use report_lines::{push_numbered, push_word};
use std::alloc::{AllocError, Global};

/// The colours and the type.
const STYLE: &[u8] = b"<style>text{font-family:Helvetica,Arial,sans-serif;font-size:120px;\
fill:#222222}.h{font-size:140px;font-weight:bold}.k{font-size:180px;font-weight:bold}\
.c{text-anchor:middle}.e{text-anchor:end}\
.l{fill:none;stroke:#0b5394;stroke-width:20;stroke-linejoin:round}\
.f{stroke:#2e7d32;stroke-width:12}.r{stroke:#b00020;stroke-width:12;stroke-dasharray:60 40}\
.a{stroke:#222222;stroke-width:12}.g{stroke:#e4e4e4;stroke-width:6}\
.o{stroke:#6a1b9a;stroke-width:12;stroke-dasharray:120 40}\
.i{stroke:#b00020;stroke-width:12;stroke-dasharray:20 30}.m{font-size:110px}\
.n{fill:none;stroke:#9a9a9a;stroke-width:6;stroke-dasharray:16 24}\
.p{fill:#ffffff;stroke:#222222;stroke-width:16}.s{fill:#e69f00;stroke:#222222;stroke-width:12}\
.d{fill:#222222}.b{fill:#ffffff;stroke:#0b5394;stroke-width:12}</style>\n";

/// The title, and what the shapes are.
const LEGEND: &[u8] = b"<rect width='100%' height='100%' fill='#ffffff'/>\n\
<text class='k' x='1200' y='320'>Battery levels over time</text>\n\
<path class='d' d='M1270 530l70 70l-70 70l-70 -70z'/><text x='1400' y='640'>depot</text>\n\
<circle class='p' cx='2150' cy='600' r='50'/><text x='2260' y='640'>c: customer</text>\n\
<rect class='s' x='3300' y='550' width='100' height='100'/>\
<text x='3460' y='640'>s: station</text>\n\
<circle class='b' cx='4500' cy='600' r='26'/>\
<text x='4580' y='640'>breakpoint of a charging curve</text>\n";

/// The schedule as a picture in SVG: for each route a panel with the level of its battery over
/// time; with a clock headings and titles tell times of day. The names of places stand above stops,
/// where there are places by node, and else the numbers of their nodes. Without a plan it says so.
/// The only refusal is want of memory.
pub fn schedule_picture(
    alloc: Global,
    schedule: Option<&Schedule>,
    clock: Option<Clock>,
    places: &[Place],
) -> Result<Vec<u8>, AllocError>
    requires timed { AreTimed (option_map (λ s. s.now) schedule) }
    requires clock { AreClocks clock }
    ensures { IfOk result (λ text. text.items
        ≡ picture_text clock places.now (option_map (λ s. s.now) schedule.entry)) }
{
    let mut out = Vec::new(alloc);
    match schedule {
        Some(schedule) => push_plan(alloc, &mut out, schedule, clock, places)?,
        None => push_none(alloc, &mut out, b"no plan")?,
    }
    out.extend_from_slice(b"</svg>\n")?;
    Ok(out)
}

/// Appends the picture of a plan, but for the end.
fn push_plan(
    alloc: Global,
    out: &mut Vec<u8>,
    schedule: &Schedule,
    clock: Option<Clock>,
    places: &[Place],
) -> Result<(), AllocError>
    requires timed { IsTimed schedule.now }
    requires clock { AreClocks clock }
    ensures { OnOk result
        (out.new.items ≡ out.old.items ++ page_text clock places.now (Some schedule.now)) }
{
    let scale = scale_of(schedule, clock, places);
    push_routes(alloc, out, scale, places, schedule.routes.as_slice())
}

/// Appends the page of routes.
#[tactic(auto, using(crate::proofs::Sizes::height_small))]
fn push_routes(
    alloc: Global,
    out: &mut Vec<u8>,
    scale: Scale,
    places: &[Place],
    routes: &[RouteSchedule],
) -> Result<(), AllocError>
    requires { IsScale scale }
    ensures { OnOk result
        (out.new.items ≡ out.old.items ++ routes_text scale places.now routes.now) }
{
    if routes.is_empty() {
        return push_none(alloc, out, b"no routes");
    }
    let height = routes.len() as u128 * (2800 + scale.rise as u128);
    push_head(alloc, out, scale.width, height)?;
    push_panels(alloc, out, scale, places, routes)
}

/// Appends a page without a panel, which says why.
fn push_none(alloc: Global, out: &mut Vec<u8>, why: &[u8]) -> Result<(), AllocError>
    ensures { OnOk result (out.new.items ≡ out.old.items ++ none_text why.now) }
{
    push_head(alloc, out, 8000, 0)?;
    push_word(out, b"<text x='1200' y='940'>")?;
    push_word(out, why)?;
    push_word(out, b"</text>\n")?;
    Ok(())
}

/// Appends the head of a page of a width, with room for panels of a height.
fn push_head(alloc: Global, out: &mut Vec<u8>, width: u64, height: u128) -> Result<(), AllocError>
    requires { height < 2 ^ 80 }
    ensures { OnOk result (out.new.items ≡ out.old.items ++ head_text width height) }
{
    let across = width as u128 + 2700;
    let down = height + 1100;
    push_size(alloc, out, across, down)?;
    push_style(out)?;
    push_legend(out)?;
    Ok(())
}

/// Appends the colours and the type.
fn push_style(out: &mut Vec<u8>) -> Result<(), AllocError>
    ensures { OnOk result (out.new.items ≡ out.old.items ++ style_text) }
{
    push_word(out, STYLE)
}

/// Appends the title, and what the shapes are.
fn push_legend(out: &mut Vec<u8>) -> Result<(), AllocError>
    ensures { OnOk result (out.new.items ≡ out.old.items ++ legend_text) }
{
    push_word(out, LEGEND)
}

/// Appends how a page of a size begins.
pub(crate) fn push_size(
    alloc: Global,
    out: &mut Vec<u8>,
    across: u128,
    down: u128,
) -> Result<(), AllocError>
    ensures { OnOk result (out.new.items ≡ out.old.items ++ size_text across down) }
{
    push_numbered(
        alloc,
        out,
        b"<svg xmlns='http://www.w3.org/2000/svg' width='",
        across / 10,
    )?;
    push_numbered(alloc, out, b"' height='", down / 10)?;
    push_numbered(alloc, out, b"' viewBox='0 0 ", across)?;
    push_numbered(alloc, out, b" ", down)?;
    push_word(out, b"'>\n")?;
    Ok(())
}
