//! The schedule as one JSON text.

ghost use Rattle.std.specs.Prelude.{◌≡◌, ◌≤◌, ◌^◌, ◌++◌, OnOk, IfOk, option_map, string_bytes};
ghost use Rattle.serde_json.specs.Data.{string};
ghost use Rattle.serde_json.specs.Written.{compact_text};
ghost use Rattle.plan_schedule.specs.Schedules.{IsTimed};
ghost use Rattle.schedule_texts.specs.Clocks.{AreClocks};
ghost use Rattle.schedule_texts.specs.Options.{AreTimed};
ghost use Rattle.schedule_texts.specs.JsonTexts.{clock_fields, inserted_field, items_from, json_text, kind_field, mark, name_field, place_fields, route_text, schedule_text, stay_fields, totals_text, visit_text, way_fields};

use crate::clock::{Clock, push_clock_time};
use place_names::{Place, name_at};
use plan_schedule::{PlaceKind, RouteSchedule, Schedule, Totals, Visit};
use report_lines::{push_numbered, push_word};
use serde_json::Value;
use std::alloc::{AllocError, Global};

/// The schedule as one JSON text, as `docs/schedule.md` has it: times are scaled, whole numbers
/// over the denominator; with a clock those of arriving and of leaving are told as times of day
/// too, and where there are places, by node, the name of each stop. Without a plan its routes are
/// `null`. The only refusal is want of memory.
pub fn schedule_json(
    alloc: Global,
    schedule: Option<&Schedule>,
    clock: Option<Clock>,
    places: &[Place],
) -> Result<Vec<u8>, AllocError>
    requires timed { AreTimed (option_map (λ s. s.now) schedule) }
    requires clock { AreClocks clock }
    ensures { IfOk result (λ text. text.items
        ≡ json_text clock places.now (option_map (λ s. s.now) schedule.entry)) }
{
    let mut out = Vec::new(alloc);
    out.extend_from_slice(b"{\"format\":\"evview schedule 1\",")?;
    match schedule {
        Some(schedule) => push_schedule(alloc, &mut out, schedule, clock, places)?,
        None => out.extend_from_slice(b"\"routes\":null}\n")?,
    }
    Ok(out)
}

/// Appends what stands of a plan behind the format.
fn push_schedule(
    alloc: Global,
    out: &mut Vec<u8>,
    schedule: &Schedule,
    clock: Option<Clock>,
    places: &[Place],
) -> Result<(), AllocError>
    requires timed { IsTimed schedule.now }
    requires clock { AreClocks clock }
    ensures { OnOk result
        (out.new.items ≡ out.old.items ++ schedule_text clock places.now schedule.now) }
{
    push_numbered(
        alloc,
        out,
        b"\"denominator\":",
        schedule.denominator as u128,
    )?;
    push_numbered(alloc, out, b",\"full\":", schedule.full as u128)?;
    push_numbered(alloc, out, b",\"reserve\":", schedule.reserve as u128)?;
    push_numbered(alloc, out, b",\"home\":", schedule.home as u128)?;
    push_word(out, b",\"routes\":[")?;
    let routes = schedule.routes.as_slice();
    push_routes(alloc, out, clock, places, schedule.denominator, routes)?;
    push_word(out, b"],\"totals\":")?;
    push_totals(alloc, out, &schedule.totals)?;
    push_word(out, b"}\n")?;
    Ok(())
}

/// Appends routes, parted by commas.
fn push_routes(
    alloc: Global,
    out: &mut Vec<u8>,
    clock: Option<Clock>,
    places: &[Place],
    denominator: u64,
    routes: &[RouteSchedule],
) -> Result<(), AllocError>
    requires some { 1 ≤ denominator }
    requires small { denominator ≤ 10 ^ 9 }
    requires clock { AreClocks clock }
    ensures { OnOk result (out.new.items
        ≡ out.old.items ++ items_from (route_text clock places.now denominator) 0 routes.now) }
{
    for (at, route) in routes.iter().enumerate() {
        out.extend_from_slice(mark(at))?;
        push_route(alloc, out, clock, places, denominator, route)?;
    }
    Ok(())
}

/// What stands in front of an item: a comma, unless it is the first, and the end of a line.
fn mark(at: usize) -> &'static [u8]
    ensures { result.now ≡ mark at }
{
    if at > 0 { b",\n" } else { b"\n" }
}

/// Appends a route.
fn push_route(
    alloc: Global,
    out: &mut Vec<u8>,
    clock: Option<Clock>,
    places: &[Place],
    denominator: u64,
    route: &RouteSchedule,
) -> Result<(), AllocError>
    requires some { 1 ≤ denominator }
    requires small { denominator ≤ 10 ^ 9 }
    requires clock { AreClocks clock }
    ensures { OnOk result
        (out.new.items ≡ out.old.items ++ route_text clock places.now denominator route.now) }
{
    push_numbered(alloc, out, b"{\"route\":", route.number as u128)?;
    push_word(out, b",\"stops\":[")?;
    push_visits(
        alloc,
        out,
        clock,
        places,
        denominator,
        route.visits.as_slice(),
    )?;
    push_word(out, b"],\"totals\":")?;
    push_totals(alloc, out, &route.totals)?;
    push_word(out, b"}")?;
    Ok(())
}

/// Appends visits, parted by commas.
fn push_visits(
    alloc: Global,
    out: &mut Vec<u8>,
    clock: Option<Clock>,
    places: &[Place],
    denominator: u64,
    visits: &[Visit],
) -> Result<(), AllocError>
    requires some { 1 ≤ denominator }
    requires small { denominator ≤ 10 ^ 9 }
    requires clock { AreClocks clock }
    ensures { OnOk result (out.new.items
        ≡ out.old.items ++ items_from (visit_text clock places.now denominator) 0 visits.now) }
{
    for (at, visit) in visits.iter().enumerate() {
        out.extend_from_slice(mark(at))?;
        push_visit(alloc, out, clock, places, denominator, visit)?;
    }
    Ok(())
}

/// Appends a visit.
fn push_visit(
    alloc: Global,
    out: &mut Vec<u8>,
    clock: Option<Clock>,
    places: &[Place],
    denominator: u64,
    visit: &Visit,
) -> Result<(), AllocError>
    requires some { 1 ≤ denominator }
    requires small { denominator ≤ 10 ^ 9 }
    requires clock { AreClocks clock }
    ensures { OnOk result
        (out.new.items ≡ out.old.items ++ visit_text clock places.now denominator visit.now) }
{
    push_place(alloc, out, places, visit)?;
    push_way(alloc, out, visit)?;
    push_stay(alloc, out, visit)?;
    push_clock(alloc, out, clock, denominator, visit)?;
    out.extend_from_slice(b"}")
}

/// Appends when the vehicle arrives and leaves by the clock, where there is one.
#[tactic(auto, unfolding(crate::specs::JsonTexts::clock_fields))]
fn push_clock(
    alloc: Global,
    out: &mut Vec<u8>,
    clock: Option<Clock>,
    denominator: u64,
    visit: &Visit,
) -> Result<(), AllocError>
    requires some { 1 ≤ denominator }
    requires small { denominator ≤ 10 ^ 9 }
    requires clock { AreClocks clock }
    ensures { OnOk result
        (out.new.items ≡ out.old.items ++ clock_fields clock denominator visit.now) }
{
    let Some(clock) = clock else {
        return Ok(());
    };
    push_word(out, b",\"arrival_clock\":\"")?;
    push_clock_time(alloc, out, clock, denominator, visit.arrival)?;
    push_word(out, b"\",\"leaving_clock\":\"")?;
    push_clock_time(alloc, out, clock, denominator, visit.leaving)?;
    push_word(out, b"\"")?;
    Ok(())
}

/// Appends where a stop is.
#[tactic(auto, unfolding(crate::specs::JsonTexts::place_fields))]
fn push_place(
    alloc: Global,
    out: &mut Vec<u8>,
    places: &[Place],
    visit: &Visit,
) -> Result<(), AllocError>
    ensures { OnOk result (out.new.items ≡ out.old.items ++ place_fields places.now visit.now) }
{
    push_numbered(alloc, out, b"{\"node\":", visit.node as u128)?;
    push_name(alloc, out, places, visit.node)?;
    out.extend_from_slice(kind_field(visit.kind))?;
    out.extend_from_slice(inserted_field(visit.inserted))
}

/// Appends the name of a node as a JSON string, where there are names.
#[tactic(auto, unfolding(crate::specs::JsonTexts::name_field))]
fn push_name(
    alloc: Global,
    out: &mut Vec<u8>,
    places: &[Place],
    node: usize,
) -> Result<(), AllocError>
    ensures { OnOk result (out.new.items ≡ out.old.items ++ name_field places.now node) }
{
    if places.is_empty() {
        return Ok(());
    }
    let name = json_string(alloc, name_at(places, node))?;
    push_word(out, b",\"name\":")?;
    push_word(out, name.as_bytes())
}

/// A text as a JSON string.
fn json_string(alloc: Global, text: &str) -> Result<String, AllocError>
    ensures { IfOk result (λ json. string_bytes json ≡ compact_text (string text.now)) }
{
    let value = Value::String(String::from_str(alloc, text)?);
    value.to_string(alloc)
}

/// Appends how a stop was come to, and when.
fn push_way(alloc: Global, out: &mut Vec<u8>, visit: &Visit) -> Result<(), AllocError>
    ensures { OnOk result (out.new.items ≡ out.old.items ++ way_fields visit.now) }
{
    push_numbered(alloc, out, b",\"energy\":", visit.energy as u128)?;
    push_numbered(alloc, out, b",\"driving\":", visit.driving as u128)?;
    push_numbered(alloc, out, b",\"arrival\":", visit.arrival as u128)?;
    push_numbered(alloc, out, b",\"level\":", visit.level as u128)?;
    Ok(())
}

/// Appends what happens at a stop, until the vehicle leaves.
fn push_stay(alloc: Global, out: &mut Vec<u8>, visit: &Visit) -> Result<(), AllocError>
    ensures { OnOk result (out.new.items ≡ out.old.items ++ stay_fields visit.now) }
{
    push_numbered(alloc, out, b",\"service\":", visit.service as u128)?;
    push_numbered(alloc, out, b",\"plugging\":", visit.plugging as u128)?;
    push_numbered(alloc, out, b",\"charging\":", visit.charging as u128)?;
    push_numbered(alloc, out, b",\"charged\":", visit.charged as u128)?;
    push_numbered(alloc, out, b",\"level_left\":", visit.level_left as u128)?;
    push_numbered(alloc, out, b",\"leaving\":", visit.leaving as u128)?;
    Ok(())
}

/// The field of what a node is.
fn kind_field(kind: PlaceKind) -> &'static [u8]
    ensures { result.now ≡ kind_field kind }
{
    match kind {
        PlaceKind::Depot => b",\"kind\":\"depot\"",
        PlaceKind::Customer => b",\"kind\":\"customer\"",
        PlaceKind::Station => b",\"kind\":\"station\"",
    }
}

/// The field of whether a stop was inserted.
fn inserted_field(inserted: bool) -> &'static [u8]
    ensures { result.now ≡ inserted_field inserted }
{
    if inserted {
        b",\"inserted\":true"
    } else {
        b",\"inserted\":false"
    }
}

/// Appends the sums of a route or of a plan.
fn push_totals(alloc: Global, out: &mut Vec<u8>, totals: &Totals) -> Result<(), AllocError>
    ensures { OnOk result (out.new.items ≡ out.old.items ++ totals_text totals.now) }
{
    push_numbered(alloc, out, b"{\"time\":", totals.time)?;
    push_numbered(alloc, out, b",\"driving\":", totals.driving)?;
    push_numbered(alloc, out, b",\"serving\":", totals.serving)?;
    push_numbered(alloc, out, b",\"plugging\":", totals.plugging)?;
    push_numbered(alloc, out, b",\"charging\":", totals.charging)?;
    push_numbered(alloc, out, b",\"energy_driven\":", totals.energy_driven)?;
    push_numbered(alloc, out, b",\"energy_charged\":", totals.energy_charged)?;
    push_numbered(alloc, out, b",\"stops\":", totals.stops)?;
    push_word(out, b"}")?;
    Ok(())
}
