//! The schedule as a table.

ghost use Rattle.std.specs.Prelude.{◌≡◌, ◌≤◌, ◌^◌, ◌++◌, OnOk, IfOk, option_map};
ghost use Rattle.ev_text.specs.Texts.{joined_texts};
ghost use Rattle.plan_schedule.specs.Schedules.{IsTimed};
ghost use Rattle.schedule_texts.specs.Clocks.{AreClocks};
ghost use Rattle.schedule_texts.specs.Options.{AreTimed};
ghost use Rattle.schedule_texts.specs.Tables.{AreColumns, charge_cells, columns_of, energies_text, header_text, kind_cell, latest_width, moment_cell, names_width, number_cell, place_cells, plan_text, route_text, row_text, rows_text, stay_cells, sum_text, sums_text, table_text, time_cell, times_text};

use crate::clock::{Clock, push_moment};
use crate::decimals::{push_cell, push_left_cell, push_time};
use crate::labels::widest;
use crate::latest::latest_of;
use place_names::{Place, name_at};
use plan_schedule::{PlaceKind, RouteSchedule, Schedule, Totals, Visit};
use report_lines::{push_number_line, push_numbered, push_word};
use std::alloc::{AllocError, Global};

/// How a table is laid out: times exact or not, and how wide their columns, those of levels and that
/// of names are.
#[derive(Clone, Copy)]
struct Columns {
    exact: bool,
    clock: Option<Clock>,
    denominator: u64,
    time: usize,
    level: usize,
    name: usize,
}

/// The schedule as a table: for each route a line a stop, and the sums; below them those of the
/// plan. Without a plan it is the line `no plan`.
///
/// Times are `X/D` where they are to be exact, and else decimals; with a clock those of arriving
/// and of leaving are times of day. Where there are places, by node, their names have a column. The
/// only refusal is want of memory.
pub fn schedule_table(
    alloc: Global,
    schedule: Option<&Schedule>,
    exact: bool,
    clock: Option<Clock>,
    places: &[Place],
) -> Result<Vec<u8>, AllocError>
    requires timed { AreTimed (option_map (λ s. s.now) schedule) }
    requires clock { AreClocks clock }
    ensures { IfOk result (λ text. text.items
        ≡ table_text exact clock places.now (option_map (λ s. s.now) schedule.entry)) }
{
    let mut out = Vec::new(alloc);
    match schedule {
        Some(schedule) => push_table(alloc, &mut out, schedule, exact, clock, places)?,
        None => out.extend_from_slice(b"no plan\n")?,
    }
    Ok(out)
}

/// Appends the table of a plan.
fn push_table(
    alloc: Global,
    out: &mut Vec<u8>,
    schedule: &Schedule,
    exact: bool,
    clock: Option<Clock>,
    places: &[Place],
) -> Result<(), AllocError>
    requires timed { IsTimed schedule.now }
    requires clock { AreClocks clock }
    ensures { OnOk result (out.new.items ≡ out.old.items
        ++ plan_text (columns_of exact clock places.now schedule.now) places.now schedule.now) }
{
    let columns = columns_of(alloc, schedule, exact, clock, places)?;
    push_plan(alloc, out, columns, places, schedule)
}

/// Appends the lines of the routes of a plan, and those of its sums.
fn push_plan(
    alloc: Global,
    out: &mut Vec<u8>,
    columns: Columns,
    places: &[Place],
    schedule: &Schedule,
) -> Result<(), AllocError>
    requires { AreColumns columns }
    ensures { OnOk result
        (out.new.items ≡ out.old.items ++ plan_text columns places.now schedule.now) }
{
    push_routes(alloc, out, columns, places, schedule.routes.as_slice())?;
    push_word(out, b"total of the plan: ")?;
    push_sums(alloc, out, columns, &schedule.totals)?;
    Ok(())
}

/// Appends the lines of routes.
fn push_routes(
    alloc: Global,
    out: &mut Vec<u8>,
    columns: Columns,
    places: &[Place],
    routes: &[RouteSchedule],
) -> Result<(), AllocError>
    requires { AreColumns columns }
    ensures { OnOk result (out.new.items
        ≡ out.old.items ++ joined_texts (route_text columns places.now) routes.now) }
{
    for route in routes {
        push_route(alloc, out, columns, places, route)?;
    }
    Ok(())
}

/// How the table of a plan is laid out.
fn columns_of(
    alloc: Global,
    schedule: &Schedule,
    exact: bool,
    clock: Option<Clock>,
    places: &[Place],
) -> Result<Columns, AllocError>
    requires timed { IsTimed schedule.now }
    requires clock { AreClocks clock }
    ensures value { IfOk result (λ c. c ≡ columns_of exact clock places.now schedule.now) }
    ensures are { IfOk result AreColumns }
{
    let denominator = schedule.denominator;
    let latest = latest_of(schedule.routes.as_slice());
    let width = latest_width(alloc, exact, clock, denominator, latest)?;
    let full = schedule.full.to_string(alloc)?;
    Ok(Columns {
        exact,
        clock,
        denominator,
        time: width.max(9),
        level: full.len().max(5),
        name: names_width(places),
    })
}

/// How wide the column of names is: 4 at least, and 0 where there are no names.
fn names_width(places: &[Place]) -> usize
    ensures { result ≡ names_width places.now }
{
    if places.is_empty() {
        return 0;
    }
    widest(4, places)
}

/// How wide the latest time is, as a time and as a moment.
fn latest_width(
    alloc: Global,
    exact: bool,
    clock: Option<Clock>,
    denominator: u64,
    latest: u64,
) -> Result<usize, AllocError>
    requires some { 1 ≤ denominator }
    requires small { denominator ≤ 10 ^ 9 }
    requires clock { AreClocks clock }
    ensures { IfOk result (λ width. width ≡ latest_width exact clock denominator latest) }
{
    let mut time = Vec::new(alloc);
    push_time(alloc, &mut time, exact, denominator, latest as u128)?;
    let mut moment = Vec::new(alloc);
    push_moment(alloc, &mut moment, clock, exact, denominator, latest)?;
    Ok(time.len().max(moment.len()))
}

/// Appends the lines of a route.
fn push_route(
    alloc: Global,
    out: &mut Vec<u8>,
    columns: Columns,
    places: &[Place],
    route: &RouteSchedule,
) -> Result<(), AllocError>
    requires { AreColumns columns }
    ensures { OnOk result
        (out.new.items ≡ out.old.items ++ route_text columns places.now route.now) }
{
    push_number_line(alloc, out, b"route ", route.number as u128)?;
    push_header(alloc, out, columns)?;
    push_rows(alloc, out, columns, places, route.visits.as_slice())?;
    push_numbered(alloc, out, b"total of route ", route.number as u128)?;
    push_word(out, b": ")?;
    push_sums(alloc, out, columns, &route.totals)?;
    push_word(out, b"\n")?;
    Ok(())
}

/// Appends the heads of the columns.
fn push_header(alloc: Global, out: &mut Vec<u8>, columns: Columns) -> Result<(), AllocError>
    ensures { OnOk result (out.new.items ≡ out.old.items ++ header_text columns) }
{
    push_word(out, b"  stop  node")?;
    push_left_cell(alloc, out, columns.name, b"name")?;
    push_word(out, b"  what    ")?;
    push_cell(alloc, out, columns.time, b"arrival")?;
    push_cell(alloc, out, columns.level, b"level")?;
    push_cell(alloc, out, columns.time, b"plug time")?;
    push_cell(alloc, out, columns.level, b"from")?;
    push_cell(alloc, out, columns.level, b"to")?;
    push_cell(alloc, out, columns.time, b"leaving")?;
    push_word(out, b"\n")?;
    Ok(())
}

/// Appends the rows of visits.
fn push_rows(
    alloc: Global,
    out: &mut Vec<u8>,
    columns: Columns,
    places: &[Place],
    visits: &[Visit],
) -> Result<(), AllocError>
    requires { AreColumns columns }
    ensures { OnOk result
        (out.new.items ≡ out.old.items ++ rows_text columns places.now 0 visits.now) }
{
    for (at, visit) in visits.iter().enumerate() {
        push_row(alloc, out, columns, places, at, visit)?;
    }
    Ok(())
}

/// Appends the row of a visit.
fn push_row(
    alloc: Global,
    out: &mut Vec<u8>,
    columns: Columns,
    places: &[Place],
    at: usize,
    visit: &Visit,
) -> Result<(), AllocError>
    requires { AreColumns columns }
    ensures { OnOk result
        (out.new.items ≡ out.old.items ++ row_text columns places.now at visit.now) }
{
    push_place(alloc, out, columns, places, at, visit)?;
    push_stay(alloc, out, columns, visit)?;
    out.extend_from_slice(b"\n")
}

/// Appends where a visit is.
#[tactic(auto, unfolding(crate::specs::Tables::place_cells))]
fn push_place(
    alloc: Global,
    out: &mut Vec<u8>,
    columns: Columns,
    places: &[Place],
    at: usize,
    visit: &Visit,
) -> Result<(), AllocError>
    ensures { OnOk result
        (out.new.items ≡ out.old.items ++ place_cells columns places.now at visit.now) }
{
    push_number(alloc, out, 4, at as u128)?;
    push_number(alloc, out, 4, visit.node as u128)?;
    let name = name_at(places, visit.node);
    push_left_cell(alloc, out, columns.name, name.as_bytes())?;
    out.extend_from_slice(kind_cell(visit.kind))
}

/// Appends when a visit is, and with which levels.
#[tactic(auto, unfolding(crate::specs::Tables::stay_cells))]
fn push_stay(
    alloc: Global,
    out: &mut Vec<u8>,
    columns: Columns,
    visit: &Visit,
) -> Result<(), AllocError>
    requires { AreColumns columns }
    ensures { OnOk result (out.new.items ≡ out.old.items ++ stay_cells columns visit.now) }
{
    push_moment_cell(alloc, out, columns, visit.arrival)?;
    push_number(alloc, out, columns.level, visit.level as u128)?;
    push_charge(alloc, out, columns, visit)?;
    push_moment_cell(alloc, out, columns, visit.leaving)
}

/// What a node is, behind two spaces, eight places wide.
fn kind_cell(kind: PlaceKind) -> &'static [u8]
    ensures { result.now ≡ kind_cell kind }
{
    match kind {
        PlaceKind::Depot => b"  depot   ",
        PlaceKind::Customer => b"  customer",
        PlaceKind::Station => b"  station ",
    }
}

#[tactic(auto, unfolding(crate::specs::Tables::charge_cells))]
/// Appends the cells of charging: the time to plug in, and the levels from which and to which; `-`
/// where nothing is charged.
fn push_charge(
    alloc: Global,
    out: &mut Vec<u8>,
    columns: Columns,
    visit: &Visit,
) -> Result<(), AllocError>
    requires { AreColumns columns }
    ensures { OnOk result (out.new.items ≡ out.old.items ++ charge_cells columns visit.now) }
{
    if visit.charged > 0 {
        push_time_cell(alloc, out, columns, visit.plugging)?;
        push_number(alloc, out, columns.level, visit.level as u128)?;
        push_number(alloc, out, columns.level, visit.level_left as u128)
    } else {
        push_cell(alloc, out, columns.time, b"-")?;
        push_cell(alloc, out, columns.level, b"-")?;
        push_cell(alloc, out, columns.level, b"-")
    }
}

/// Appends the cell of a number.
fn push_number(
    alloc: Global,
    out: &mut Vec<u8>,
    width: usize,
    number: u128,
) -> Result<(), AllocError>
    ensures { OnOk result (out.new.items ≡ out.old.items ++ number_cell width number) }
{
    let text = number.to_string(alloc)?;
    push_cell(alloc, out, width, text.as_bytes())
}

/// Appends the cell of a time.
fn push_time_cell(
    alloc: Global,
    out: &mut Vec<u8>,
    columns: Columns,
    time: u64,
) -> Result<(), AllocError>
    requires { AreColumns columns }
    ensures { OnOk result (out.new.items ≡ out.old.items ++ time_cell columns time) }
{
    let mut text = Vec::new(alloc);
    push_time(
        alloc,
        &mut text,
        columns.exact,
        columns.denominator,
        time as u128,
    )?;
    push_cell(alloc, out, columns.time, text.as_slice())
}

/// Appends the cell of when something happens.
fn push_moment_cell(
    alloc: Global,
    out: &mut Vec<u8>,
    columns: Columns,
    time: u64,
) -> Result<(), AllocError>
    requires { AreColumns columns }
    ensures { OnOk result (out.new.items ≡ out.old.items ++ moment_cell columns time) }
{
    let mut text = Vec::new(alloc);
    push_moment(
        alloc,
        &mut text,
        columns.clock,
        columns.exact,
        columns.denominator,
        time,
    )?;
    push_cell(alloc, out, columns.time, text.as_slice())
}

/// Appends the sums of a route or of a plan, and the end of the line.
fn push_sums(
    alloc: Global,
    out: &mut Vec<u8>,
    columns: Columns,
    totals: &Totals,
) -> Result<(), AllocError>
    requires { AreColumns columns }
    ensures { OnOk result (out.new.items ≡ out.old.items ++ sums_text columns totals.now) }
{
    push_times(alloc, out, columns, totals)?;
    push_energies(alloc, out, totals)
}

/// Appends the sums of times.
#[tactic(auto, unfolding(crate::specs::Tables::times_text))]
fn push_times(
    alloc: Global,
    out: &mut Vec<u8>,
    columns: Columns,
    totals: &Totals,
) -> Result<(), AllocError>
    requires { AreColumns columns }
    ensures { OnOk result (out.new.items ≡ out.old.items ++ times_text columns totals.now) }
{
    push_sum(alloc, out, columns, b"time ", totals.time)?;
    push_sum(alloc, out, columns, b", driving ", totals.driving)?;
    push_sum(alloc, out, columns, b", serving ", totals.serving)?;
    push_sum(alloc, out, columns, b", plugging in ", totals.plugging)?;
    push_sum(alloc, out, columns, b", charging ", totals.charging)
}

#[tactic(auto, unfolding(crate::specs::Tables::energies_text))]
/// Appends the sums of energies, how many stops there are, and the end of the line.
fn push_energies(alloc: Global, out: &mut Vec<u8>, totals: &Totals) -> Result<(), AllocError>
    ensures { OnOk result (out.new.items ≡ out.old.items ++ energies_text totals.now) }
{
    push_numbered(alloc, out, b", energy driven ", totals.energy_driven)?;
    push_numbered(alloc, out, b", energy charged ", totals.energy_charged)?;
    push_number_line(alloc, out, b", stops ", totals.stops)
}

/// Appends a word and a sum of times.
fn push_sum(
    alloc: Global,
    out: &mut Vec<u8>,
    columns: Columns,
    word: &[u8],
    time: u128,
) -> Result<(), AllocError>
    requires { AreColumns columns }
    ensures { OnOk result (out.new.items ≡ out.old.items ++ sum_text columns word.now time) }
{
    out.extend_from_slice(word)?;
    push_time(alloc, out, columns.exact, columns.denominator, time)
}
