//! The panel of a route.

ghost use Rattle.std.specs.Prelude.{◌≡◌, ◌<◌, ◌≤◌, ◌^◌, ◌++◌, OnOk};
ghost use Rattle.schedule_texts.specs.Panels.{heading_text, left_out_text, panel_text, panel_top, panels_text, placed_text, span_text};
ghost use Rattle.schedule_texts.specs.Scales.{IsScale};

use crate::clock::push_clock_time;
use crate::decimals::push_decimal;
use crate::latest::latest_in;
use crate::picture::axis::push_axis;
use crate::picture::frame::push_frame;
use crate::picture::line::{push_bends, push_line};
use crate::picture::names::{left_out, push_names};
use crate::picture::scale::Scale;
use crate::picture::stops::push_stops;
use place_names::Place;
use plan_schedule::RouteSchedule;
use report_lines::{push_numbered, push_word};
use std::alloc::{AllocError, Global};

/// Appends the panels of routes, one below the other.
pub(crate) fn push_panels(
    alloc: Global,
    out: &mut Vec<u8>,
    scale: Scale,
    places: &[Place],
    routes: &[RouteSchedule],
) -> Result<(), AllocError>
    requires { IsScale scale }
    ensures { OnOk result
        (out.new.items ≡ out.old.items ++ panels_text scale places.now 0 routes.now) }
{
    for (at, route) in routes.iter().enumerate() {
        push_placed(alloc, out, scale, places, at, route)?;
    }
    Ok(())
}

/// Appends the panel with this number from above.
fn push_placed(
    alloc: Global,
    out: &mut Vec<u8>,
    scale: Scale,
    places: &[Place],
    at: usize,
    route: &RouteSchedule,
) -> Result<(), AllocError>
    requires { IsScale scale }
    ensures { OnOk result
        (out.new.items ≡ out.old.items ++ placed_text scale places.now at route.now) }
{
    let top = panel_top(scale, at);
    push_heading(alloc, out, scale, top + 130, route)?;
    let below = top + scale.rise as u128;
    push_numbered(alloc, out, b"<g transform='translate(0,", below)?;
    push_word(out, b")'>\n")?;
    push_panel(alloc, out, scale, places, route)?;
    push_word(out, b"</g>\n")?;
    Ok(())
}

/// Where the panel with this number begins, from the top.
#[tactic(auto, using(crate::proofs::Sizes::height_small))]
fn panel_top(scale: Scale, at: usize) -> u128
    requires { IsScale scale }
    ensures value { result ≡ panel_top scale at }
    ensures small { result < 2 ^ 80 }
{
    at as u128 * (2800 + scale.rise as u128) + 900
}

/// Appends what stands in the panel of a route.
fn push_panel(
    alloc: Global,
    out: &mut Vec<u8>,
    scale: Scale,
    places: &[Place],
    route: &RouteSchedule,
) -> Result<(), AllocError>
    requires { IsScale scale }
    ensures { OnOk result (out.new.items ≡ out.old.items ++ panel_text scale places.now route.now) }
{
    push_axis(alloc, out, scale)?;
    push_frame(alloc, out, scale)?;
    push_names(alloc, out, scale, places, route.visits.as_slice())?;
    push_line(alloc, out, scale, route.line.as_slice())?;
    push_bends(alloc, out, scale, route.line.as_slice())?;
    push_stops(alloc, out, scale, places, route.visits.as_slice())?;
    Ok(())
}

/// Appends the heading of a route at a height.
fn push_heading(
    alloc: Global,
    out: &mut Vec<u8>,
    scale: Scale,
    y: u128,
    route: &RouteSchedule,
) -> Result<(), AllocError>
    requires { IsScale scale }
    ensures { OnOk result (out.new.items ≡ out.old.items ++ heading_text scale y route.now) }
{
    push_numbered(alloc, out, b"<text class='h' x='1200' y='", y)?;
    push_numbered(alloc, out, b"'>route ", route.number as u128)?;
    push_numbered(alloc, out, b": stops ", route.totals.stops)?;
    push_word(out, b", time ")?;
    push_decimal(alloc, out, scale.denominator, route.totals.time)?;
    push_numbered(
        alloc,
        out,
        b", energy charged ",
        route.totals.energy_charged,
    )?;
    push_span(alloc, out, scale, route)?;
    push_left_out(alloc, out, left_out(scale, route.visits.as_slice()))?;
    push_word(out, b"</text>\n")?;
    Ok(())
}

/// Appends how many names are left out, where some are.
fn push_left_out(alloc: Global, out: &mut Vec<u8>, count: u64) -> Result<(), AllocError>
    ensures { OnOk result (out.new.items ≡ out.old.items ++ left_out_text count) }
{
    if count > 0 {
        push_numbered(alloc, out, b", names left out ", count as u128)?;
    }
    Ok(())
}

/// Appends when the vehicle begins and ends by the clock, where there is one.
#[tactic(auto, unfolding(crate::specs::Panels::span_text))]
fn push_span(
    alloc: Global,
    out: &mut Vec<u8>,
    scale: Scale,
    route: &RouteSchedule,
) -> Result<(), AllocError>
    requires { IsScale scale }
    ensures { OnOk result (out.new.items
        ≡ out.old.items ++ span_text scale.clock scale.denominator route.now) }
{
    let Some(clock) = scale.clock else {
        return Ok(());
    };
    let last = latest_in(0, route.visits.as_slice());
    push_word(out, b", from ")?;
    push_clock_time(alloc, out, clock, scale.denominator, 0)?;
    push_word(out, b" to ")?;
    push_clock_time(alloc, out, clock, scale.denominator, last)
}
