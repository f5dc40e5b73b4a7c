//! Reading the texts of plans and of fleet plans.

ghost use Rattle.std.specs.Prelude.{◌≡◌, ◌≢◌, Ok, Err, IfErr, IfOk};
ghost use Rattle.ev_text.specs.Readers.{so_many};
ghost use Rattle.ev_text.specs.Scans.{whole_at};
ghost use Rattle.route_plan.specs.Limits.{greatest_number};
ghost use Rattle.route_plan.specs.PlanReading.{amount_at, file_at, fleet_plan_in, or_bad, plan_at, plan_in, plans_behind, route_at, routes_at, stop_at, stops_at};
ghost use Rattle.route_plan.specs.PlanTexts.{SpellsFleetPlan, SpellsPlan};
ghost use Rattle.route_plan.specs.declared.text.plan_text.PlanText.TheVariants.{Bad, Memory};

use crate::{FleetPlan, PlanText, RoutePlan, Stop};
use ev_list::Listed;
use ev_text::{Scan, TextFault};
use instance_reader::MOST_BYTES;
use std::alloc::{AllocFailed, Global};

/// The greatest number of a node, and the greatest amount.
const GREATEST_NUMBER: u128 = 1_000_000_000;

/// The most routes of a fleet plan.
const MOST_ROUTES: u128 = 1_000_000;

impl From<TextFault> for PlanText {
    ghost from_gives = { λ fault e. e ≡ Bad fault };

    fn from(fault: TextFault) -> PlanText {
        PlanText::Bad { fault }
    }
}

impl<T: Drop> From<AllocFailed<T>> for PlanText {
    ghost from_gives = { λ _ e. e ≡ Memory };

    fn from(_refused: AllocFailed<T>) -> PlanText {
        PlanText::Memory
    }
}

/// The plan of a text: the word `route `, the stops parted by single spaces, and a line feed,
/// behind which the text ends. A plan has one stop at least. A stop is `v` where it was inserted,
/// then its node, then `+` and the amount where something is charged. Nodes and amounts are decimal
/// numbers without leading zeros and at most 10^9, amounts are in whole units of charge and above
/// 0.
///
/// A text of more than 2^26 bytes is `TooLong`. Else `Bad` has the first fault from the left; its
/// place counts bytes from 0 and is where the number or the word was to begin. `NotWhole`: no digit
/// stands there, or a `0` with another digit behind it, or the amount is 0. `TooLarge`: the number
/// is above 10^9. `End`: the text ends before the number, or within the word. `Word`: other bytes
/// stand there than `route `, or a space or the line feed, or bytes follow the last line feed. A
/// `v` and a `+` may stand, and are never missed. `Memory`: memory was refused.
pub fn read_plan(alloc: Global, bytes: &[u8]) -> Result<RoutePlan, PlanText>
    ensures ok { IfOk result (λ plan. plan_in bytes.now ≡ Ok plan.stops) }
    ensures spelled { IfOk result (λ plan. SpellsPlan bytes.now plan.stops) }
    ensures fault { IfErr result (λ fault. fault ≢ PlanText.Memory →
        plan_in bytes.now ≡ Err fault) }
{
    let len = bytes.len();
    if len > MOST_BYTES {
        return Err(PlanText::TooLong { len });
    }
    let mut scan = Scan::new(bytes);
    let plan = take_route(alloc, &mut scan)?;
    scan.end()?;
    Ok(plan)
}

/// The fleet plan of a file, or `None` where the file says that there is none. The first line is
/// `evroute plan 1`. The second is `none`, or `routes ` and the number of routes, at most 10^6, and
/// then a line follows for each route, as `read_plan` reads it. Each line ends with a line feed,
/// and the file ends with the last.
///
/// The faults are those of `read_plan`. A line without a number is one word, its line feed
/// included. Where neither `none` nor `routes ` stands, the fault is `End` if the file ends within
/// one of them, and else `Word`. A number of routes above 10^6 is `TooLarge`. A line too many is
/// `Word` at its beginning, a line too few `End` there.
pub fn read_fleet_plan(alloc: Global, bytes: &[u8]) -> Result<Option<FleetPlan>, PlanText>
    ensures ok { IfOk result (λ plan. fleet_plan_in bytes.now ≡ Ok plan) }
    ensures spelled { IfOk result (SpellsFleetPlan bytes.now) }
    ensures fault { IfErr result (λ fault. fault ≢ PlanText.Memory →
        fleet_plan_in bytes.now ≡ Err fault) }
{
    let len = bytes.len();
    if len > MOST_BYTES {
        return Err(PlanText::TooLong { len });
    }
    let mut scan = Scan::new(bytes);
    let plan = take_file(alloc, &mut scan)?;
    scan.end()?;
    Ok(plan)
}

/// Takes a file: the word of its first line, and then `none` or the plans.
fn take_file(alloc: Global, scan: &mut Scan<'_>) -> Result<Option<FleetPlan>, PlanText>
    ensures ok { IfOk result (λ plan. file_at scan.old ≡ Ok (plan, scan.new)) }
    ensures fault { IfErr result (λ fault. fault ≢ PlanText.Memory →
        or_bad (file_at scan.old) ≡ Err fault) }
{
    scan.word(b"evroute plan 1\n")?;
    if scan.choose(b"none\n")? {
        return Ok(None);
    }
    scan.word(b"routes ")?;
    take_plans(alloc, scan)
}

/// Takes the number of routes, the line feed behind it, and their lines.
fn take_plans(alloc: Global, scan: &mut Scan<'_>) -> Result<Option<FleetPlan>, PlanText>
    ensures ok { IfOk result (λ plan. routes_at scan.old ≡ Ok (plan, scan.new)) }
    ensures fault { IfErr result (λ fault. fault ≢ PlanText.Memory →
        or_bad (routes_at scan.old) ≡ Err fault) }
{
    let count = scan.whole(MOST_ROUTES)?;
    scan.word(b"\n")?;
    let routes = take_routes(alloc, scan, count)?;
    Ok(Some(FleetPlan {
        routes: Listed::from_vec(routes),
    }))
}

/// Takes the lines of `count` routes.
fn take_routes(alloc: Global, scan: &mut Scan<'_>, count: u128) -> Result<Vec<RoutePlan>, PlanText>
    ensures ok { IfOk result (λ routes. so_many count route_at scan.old
        ≡ Ok (routes.items, scan.new)) }
    ensures fault { IfErr result (λ fault. fault ≢ PlanText.Memory →
        or_bad (so_many count route_at scan.old) ≡ Err fault) }
{
    let mut routes = Vec::new(alloc);
    for _ in 0..count {
        let route = take_route(alloc, scan)?;
        routes.push(route)?;
    }
    Ok(routes)
}

/// Takes the line of a plan: its word, the stops, and the line feed.
fn take_route(alloc: Global, scan: &mut Scan<'_>) -> Result<RoutePlan, PlanText>
    ensures ok { IfOk result (λ plan. plan_at scan.old ≡ Ok (plan.stops, scan.new)) }
    ensures fault { IfErr result (λ fault. fault ≢ PlanText.Memory →
        or_bad (plan_at scan.old) ≡ Err fault) }
{
    scan.word(b"route ")?;
    take_stops(alloc, scan)
}

/// Takes the stops of a plan, of which there is one at least, parted by single spaces, and the line
/// feed behind them.
///
/// The refusals are those of `read_plan` within a line. Where the scan stands after a refusal isn't
/// said.
pub fn take_stops(alloc: Global, scan: &mut Scan<'_>) -> Result<RoutePlan, PlanText>
    ensures ok { IfOk result (λ plan. stops_at scan.old ≡ Ok (plan.stops, scan.new)) }
    ensures fault { IfErr result (λ fault. fault ≢ PlanText.Memory →
        or_bad (stops_at scan.old) ≡ Err fault) }
{
    let mut stops = Vec::new(alloc);
    let first = take_stop(scan)?;
    stops.push(first)?;
    while scan.take_if(b" ") {
        let next = take_stop(scan)?;
        stops.push(next)?;
    }
    scan.word(b"\n")?;
    Ok(RoutePlan {
        stops: Listed::from_vec(stops),
    })
}

/// Takes a stop: a `v` where it was inserted, its node, and a `+` and the amount where something is
/// charged.
fn take_stop(scan: &mut Scan<'_>) -> Result<Stop, TextFault>
    ensures ok { IfOk result (λ stop. stop_at scan.old ≡ Ok (stop, scan.new)) }
    ensures fault { IfErr result (λ fault. stop_at scan.old ≡ Err fault) }
{
    let via = scan.take_if(b"v");
    let node = scan.whole(GREATEST_NUMBER)? as usize;
    let added = take_amount(scan)?;
    Ok(Stop { node, added, via })
}

/// Takes a `+` and the amount behind it, which is above 0, or nothing and answers 0.
fn take_amount(scan: &mut Scan<'_>) -> Result<u64, TextFault>
    ensures ok { IfOk result (λ added. amount_at scan.old ≡ Ok (added, scan.new)) }
    ensures fault { IfErr result (λ fault. amount_at scan.old ≡ Err fault) }
{
    if !scan.take_if(b"+") {
        return Ok(0);
    }
    let amount = scan.positive(GREATEST_NUMBER)?;
    Ok(amount as u64)
}
