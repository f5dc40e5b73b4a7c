//! The schedule as CSV, for spreadsheets.

ghost use Rattle.std.specs.Prelude.{◌≡◌, ◌≤◌, ◌^◌, ◌++◌, [], ◌∷◌, OnOk, IfOk, codes, decimal, false, length, map, option_map};
ghost use Rattle.std.specs.List.{list_any};
ghost use Rattle.ev_text.specs.Texts.{joined_texts};
ghost use Rattle.place_names.specs.Places.{name_at};
ghost use Rattle.schedule_texts.specs.Clocks.{AreClocks, moment_text};
ghost use Rattle.schedule_texts.specs.Decimals.{decimal_text};
ghost use Rattle.schedule_texts.specs.Options.{AreTimed};
ghost use Rattle.schedule_texts.specs.Spreadsheets.{begins_formula, calls_for_quotes, cell_of, charge_begin, charged_text, column_names, csv_text, doubled, field_text, kind_word, more_fields, record_text, route_cells, starts_formula, stay_texts, visit_cells, visit_texts, with_name};

use crate::clock::{Clock, push_moment};
use crate::decimals::push_decimal;
use place_names::{Place, name_at};
use plan_schedule::{PlaceKind, RouteSchedule, Schedule, Visit};
use report_lines::push_word;
use std::alloc::{AllocError, Global};

/// The names of the columns where there are no names of places, and where there are.
const COLUMN_NAMES: &[&[u8]] = &[
    b"route",
    b"stop",
    b"node",
    b"what",
    b"arrival",
    b"level",
    b"plug time",
    b"charge begin",
    b"charge end",
    b"from",
    b"to",
    b"leaving",
];

const COLUMN_NAMES_WITH_NAME: &[&[u8]] = &[
    b"route",
    b"stop",
    b"node",
    b"name",
    b"what",
    b"arrival",
    b"level",
    b"plug time",
    b"charge begin",
    b"charge end",
    b"from",
    b"to",
    b"leaving",
];

/// The schedule as CSV: a record with the names of the columns, and one a stop. Without a plan it
/// is the names alone. Times are decimals; with a clock all but the one to plug in are times of
/// day. Where there are places, by node, their names have a column. The only refusal is want of
/// memory.
pub fn schedule_csv(
    alloc: Global,
    schedule: Option<&Schedule>,
    clock: Option<Clock>,
    places: &[Place],
) -> Result<Vec<u8>, AllocError>
    requires timed { AreTimed (option_map (λ s. s.now) schedule) }
    requires clock { AreClocks clock }
    ensures { IfOk result (λ text. text.items
        ≡ csv_text clock places.now (option_map (λ s. s.now) schedule.entry)) }
{
    let mut out = Vec::new(alloc);
    push_names(alloc, &mut out, places)?;
    if let Some(schedule) = schedule {
        let routes = schedule.routes.as_slice();
        push_routes(alloc, &mut out, clock, places, schedule.denominator, routes)?;
    }
    Ok(out)
}

/// Appends the record of the names of the columns.
fn push_names(alloc: Global, out: &mut Vec<u8>, places: &[Place]) -> Result<(), AllocError>
    ensures { OnOk result (out.new.items
        ≡ out.old.items ++ record_text (map cell_of (column_names places.now))) }
{
    if places.is_empty() {
        push_record(alloc, out, COLUMN_NAMES)
    } else {
        push_record(alloc, out, COLUMN_NAMES_WITH_NAME)
    }
}

/// Appends the records of routes.
fn push_routes(
    alloc: Global,
    out: &mut Vec<u8>,
    clock: Option<Clock>,
    places: &[Place],
    denominator: u64,
    routes: &[RouteSchedule],
) -> Result<(), AllocError>
    requires some { 1 ≤ denominator }
    requires small { denominator ≤ 10 ^ 9 }
    requires clock { AreClocks clock }
    ensures { OnOk result (out.new.items ≡ out.old.items
        ++ joined_texts record_text (route_cells clock places.now denominator routes.now)) }
{
    for route in routes {
        push_visits(
            alloc,
            out,
            clock,
            places,
            denominator,
            route.number,
            route.visits.as_slice(),
        )?;
    }
    Ok(())
}

/// Appends the records of the visits of a route with this number.
fn push_visits(
    alloc: Global,
    out: &mut Vec<u8>,
    clock: Option<Clock>,
    places: &[Place],
    denominator: u64,
    number: usize,
    visits: &[Visit],
) -> Result<(), AllocError>
    requires some { 1 ≤ denominator }
    requires small { denominator ≤ 10 ^ 9 }
    requires clock { AreClocks clock }
    ensures { OnOk result (out.new.items ≡ out.old.items ++ joined_texts record_text
        (visit_cells clock places.now denominator number 0 visits.now)) }
{
    for (at, visit) in visits.iter().enumerate() {
        push_visit(alloc, out, clock, places, denominator, number, at, visit)?;
    }
    Ok(())
}

/// Appends the record of a visit.
fn push_visit(
    alloc: Global,
    out: &mut Vec<u8>,
    clock: Option<Clock>,
    places: &[Place],
    denominator: u64,
    number: usize,
    at: usize,
    visit: &Visit,
) -> Result<(), AllocError>
    requires some { 1 ≤ denominator }
    requires small { denominator ≤ 10 ^ 9 }
    requires clock { AreClocks clock }
    ensures { OnOk result (out.new.items ≡ out.old.items
        ++ record_text (map cell_of (visit_texts clock places.now denominator number at visit.now))) }
{
    push_start(alloc, out, number, at, visit.node)?;
    push_place_name(alloc, out, places, visit.node)?;
    push_stay(alloc, out, clock, denominator, visit)?;
    push_word(out, b"\n")?;
    Ok(())
}

/// Appends the cells of the numbers of a route, a stop and a node, with which a record begins.
fn push_start(
    alloc: Global,
    out: &mut Vec<u8>,
    number: usize,
    at: usize,
    node: usize,
) -> Result<(), AllocError>
    ensures { OnOk result (out.new.items ≡ out.old.items ++ (field_text (cell_of (decimal number))
        ++ more_fields (map cell_of (decimal at ∷ decimal node ∷ [])))) }
{
    let route = number.to_string(alloc)?;
    let stop = at.to_string(alloc)?;
    let node = node.to_string(alloc)?;
    push_cell(alloc, out, route.as_bytes())?;
    push_more(alloc, out, &[stop.as_bytes(), node.as_bytes()])
}

/// Appends the cell with the name of a node, where there are names.
fn push_place_name(
    alloc: Global,
    out: &mut Vec<u8>,
    places: &[Place],
    node: usize,
) -> Result<(), AllocError>
    ensures { OnOk result (out.new.items ≡ out.old.items
        ++ more_fields (map cell_of (with_name places.now (name_at places.now node) []))) }
{
    if places.is_empty() {
        return Ok(());
    }
    push_more(alloc, out, &[name_at(places, node).as_bytes()])
}

/// Appends the cells of what a visit is and when.
#[tactic(auto, unfolding(crate::specs::Spreadsheets::stay_texts))]
fn push_stay(
    alloc: Global,
    out: &mut Vec<u8>,
    clock: Option<Clock>,
    denominator: u64,
    visit: &Visit,
) -> Result<(), AllocError>
    requires some { 1 ≤ denominator }
    requires small { denominator ≤ 10 ^ 9 }
    requires clock { AreClocks clock }
    ensures { OnOk result (out.new.items ≡ out.old.items
        ++ more_fields (map cell_of (stay_texts clock denominator visit.now))) }
{
    let arrival = moment_of(alloc, clock, denominator, visit.arrival)?;
    let level = visit.level.to_string(alloc)?;
    let plugging = charged_time(alloc, denominator, visit, visit.plugging)?;
    let begin = charged_moment(alloc, clock, denominator, visit, charge_begin(visit))?;
    let end = charged_moment(alloc, clock, denominator, visit, visit.leaving)?;
    let from = charged_level(alloc, visit, visit.level)?;
    let to = charged_level(alloc, visit, visit.level_left)?;
    let leaving = moment_of(alloc, clock, denominator, visit.leaving)?;
    push_more(
        alloc,
        out,
        &[
            kind_word(visit.kind),
            arrival.as_slice(),
            level.as_bytes(),
            plugging.as_slice(),
            begin.as_slice(),
            end.as_slice(),
            from.as_slice(),
            to.as_slice(),
            leaving.as_slice(),
        ],
    )
}

/// When charging begins: it ends when the vehicle leaves.
fn charge_begin(visit: &Visit) -> u64
    ensures { result ≡ charge_begin visit.now }
{
    visit.leaving.saturating_sub(visit.charging)
}

/// The word of what a node is.
fn kind_word(kind: PlaceKind) -> &'static [u8]
    ensures { result.now ≡ kind_word kind }
{
    match kind {
        PlaceKind::Depot => b"depot",
        PlaceKind::Customer => b"customer",
        PlaceKind::Station => b"station",
    }
}

/// The text of when something happens.
fn moment_of(
    alloc: Global,
    clock: Option<Clock>,
    denominator: u64,
    scaled: u64,
) -> Result<Vec<u8>, AllocError>
    requires some { 1 ≤ denominator }
    requires small { denominator ≤ 10 ^ 9 }
    requires clock { AreClocks clock }
    ensures { IfOk result (λ text. text.items ≡ moment_text clock false denominator scaled) }
{
    let mut text = Vec::new(alloc);
    push_moment(alloc, &mut text, clock, false, denominator, scaled)?;
    Ok(text)
}

/// The text of when something happens, where something is charged.
fn charged_moment(
    alloc: Global,
    clock: Option<Clock>,
    denominator: u64,
    visit: &Visit,
    scaled: u64,
) -> Result<Vec<u8>, AllocError>
    requires some { 1 ≤ denominator }
    requires small { denominator ≤ 10 ^ 9 }
    requires clock { AreClocks clock }
    ensures { IfOk result (λ text.
        text.items ≡ charged_text visit.now (moment_text clock false denominator scaled)) }
{
    if visit.charged > 0 {
        moment_of(alloc, clock, denominator, scaled)
    } else {
        Ok(Vec::new(alloc))
    }
}

/// The text of a time, where something is charged.
fn charged_time(
    alloc: Global,
    denominator: u64,
    visit: &Visit,
    scaled: u64,
) -> Result<Vec<u8>, AllocError>
    requires { 1 ≤ denominator }
    ensures { IfOk result
        (λ text. text.items ≡ charged_text visit.now (decimal_text denominator scaled)) }
{
    let mut text = Vec::new(alloc);
    if visit.charged > 0 {
        push_decimal(alloc, &mut text, denominator, scaled as u128)?;
    }
    Ok(text)
}

/// The text of a level, where something is charged.
fn charged_level(alloc: Global, visit: &Visit, level: u64) -> Result<Vec<u8>, AllocError>
    ensures { IfOk result (λ text. text.items ≡ charged_text visit.now (decimal level)) }
{
    let mut text = Vec::new(alloc);
    if visit.charged > 0 {
        text.extend_from_slice(level.to_string(alloc)?.as_bytes())?;
    }
    Ok(text)
}

/// Appends the record of these texts, a cell each: at least one.
fn push_record(alloc: Global, out: &mut Vec<u8>, texts: &[&[u8]]) -> Result<(), AllocError>
    requires { 1 ≤ length texts.now }
    ensures { OnOk result (out.new.items
        ≡ out.old.items ++ record_text (map cell_of (map (λ t. t.now) texts.now))) }
{
    let [first, others @ ..] = texts else {
        return Ok(());
    };
    push_cell(alloc, out, first)?;
    push_more(alloc, out, others)?;
    push_word(out, b"\n")?;
    Ok(())
}

/// Appends the cells of texts behind others of their record.
fn push_more(alloc: Global, out: &mut Vec<u8>, texts: &[&[u8]]) -> Result<(), AllocError>
    ensures { OnOk result (out.new.items
        ≡ out.old.items ++ more_fields (map cell_of (map (λ t. t.now) texts.now))) }
{
    for text in texts {
        push_word(out, b",")?;
        push_cell(alloc, out, text)?;
    }
    Ok(())
}

/// Appends a text as a cell: behind an apostrophe where a spreadsheet would take it for a formula.
fn push_cell(alloc: Global, out: &mut Vec<u8>, text: &[u8]) -> Result<(), AllocError>
    ensures { OnOk result (out.new.items ≡ out.old.items ++ field_text (cell_of text.now)) }
{
    if begins_formula(text) {
        let mut cell = Vec::new(alloc);
        cell.extend_from_slice(b"'")?;
        cell.extend_from_slice(text)?;
        push_field(out, cell.as_slice())
    } else {
        push_field(out, text)
    }
}

/// Whether a spreadsheet would take a text for a formula.
fn begins_formula(text: &[u8]) -> bool
    ensures { result ≡ begins_formula text.now }
{
    match text {
        [] => false,
        [first, ..] => starts_formula(*first),
    }
}

/// Whether what begins with a byte would be taken for a formula.
fn starts_formula(byte: u8) -> bool
    ensures { result ≡ starts_formula byte }
{
    byte == b'='
        || byte == b'+'
        || byte == b'-'
        || byte == b'@'
        || byte == b'\t'
        || byte == b'\n'
        || byte == b'\r'
}

/// Appends a cell, between quotes where it needs them.
fn push_field(out: &mut Vec<u8>, cell: &[u8]) -> Result<(), AllocError>
    ensures { OnOk result (out.new.items ≡ out.old.items ++ field_text cell.now) }
{
    if needs_quotes(cell) {
        push_quoted(out, cell)
    } else {
        out.extend_from_slice(cell)
    }
}

/// Whether a cell needs quotes.
fn needs_quotes(cell: &[u8]) -> bool
    ensures { result ≡ list_any calls_for_quotes cell.now }
{
    for byte in cell {
        if calls_for_quotes(*byte) {
            return true;
        }
    }
    false
}

/// Whether a byte stands between quotes.
fn calls_for_quotes(byte: u8) -> bool
    ensures { result ≡ calls_for_quotes byte }
{
    byte == b',' || byte == b'"' || byte == b'\r' || byte == b'\n'
}

/// Appends a cell between quotes.
fn push_quoted(out: &mut Vec<u8>, cell: &[u8]) -> Result<(), AllocError>
    ensures { OnOk result
        (out.new.items ≡ out.old.items ++ codes "\"" ++ doubled cell.now ++ codes "\"") }
{
    out.extend_from_slice(b"\"")?;
    push_doubled(out, cell)?;
    out.extend_from_slice(b"\"")
}

/// Appends a text with each quote twice.
fn push_doubled(out: &mut Vec<u8>, text: &[u8]) -> Result<(), AllocError>
    ensures { OnOk result (out.new.items ≡ out.old.items ++ doubled text.now) }
{
    for byte in text {
        if *byte == b'"' {
            out.extend_from_slice(b"\"")?;
        }
        out.extend_from_slice(&[*byte])?;
    }
    Ok(())
}
