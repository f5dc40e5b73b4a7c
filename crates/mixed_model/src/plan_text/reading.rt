//! Reading the text of a plan of a fleet of several kinds of vehicles.

ghost use Rattle.std.specs.Prelude.{◌≡◌, ◌≢◌, ◌≤◌, Err, IfErr, IfOk, Ok, option_map};
ghost use Rattle.ev_text.specs.Readers.{so_many};
ghost use Rattle.mixed_model.specs.Kinds.{most_kinds};
ghost use Rattle.mixed_model.specs.MixedReading.{mixed_file_at, mixed_plan_in, mixed_route_at, mixed_routes_at};
ghost use Rattle.mixed_model.specs.MixedTexts.{SpellsMixedPlan};
ghost use Rattle.route_plan.specs.PlanReading.{or_bad};

use crate::MixedRoute;
use ev_text::Scan;
use instance_reader::MOST_BYTES;
use route_plan::{PlanText, take_stops};
use std::alloc::Global;

/// The most routes of a plan.
const MOST_ROUTES: u128 = 1_000_000;

/// The plan of a text for a fleet of so many kinds of vehicles, or `None` where the text says that
/// there is none. The first line is `evroute mixed plan 1`. The second is `none`, or `routes ` and
/// the number of routes, at most 10^6, and then a line follows for each route: `kind `, the number
/// of its kind, which is below the number of kinds, ` route `, and its stops as in the plan of one
/// vehicle. Each line ends with a line feed, and the text ends with the last.
///
/// A text of more than 2^26 bytes is `TooLong`. Else `Bad` has the first fault from the left, as in
/// the text of a fleet plan: a number of routes above 10^6 and a kind that there isn't are
/// `TooLarge` at the number, and `kind ` and ` route ` are a word each. `Memory`: memory was
/// refused.
pub fn read_mixed_plan(
    alloc: Global,
    kinds: usize,
    bytes: &[u8],
) -> Result<Option<Vec<MixedRoute>>, PlanText>
    requires some { 1 ≤ kinds }
    requires few { kinds ≤ most_kinds }
    ensures ok { IfOk result (λ plan.
        mixed_plan_in kinds bytes.now ≡ Ok (option_map (λ v. v.items) plan)) }
    ensures spelled { IfOk result (λ plan.
        SpellsMixedPlan kinds bytes.now (option_map (λ v. v.items) plan)) }
    ensures fault { IfErr result (λ fault. fault ≢ PlanText.Memory →
        mixed_plan_in kinds bytes.now ≡ Err fault) }
{
    let len = bytes.len();
    if len > MOST_BYTES {
        return Err(PlanText::TooLong { len });
    }
    let mut scan = Scan::new(bytes);
    let plan = take_file(alloc, kinds, &mut scan)?;
    scan.end()?;
    Ok(plan)
}

/// Takes a text: the word of its first line, and then `none` or the routes.
fn take_file(
    alloc: Global,
    kinds: usize,
    scan: &mut Scan<'_>,
) -> Result<Option<Vec<MixedRoute>>, PlanText>
    requires { 1 ≤ kinds }
    ensures ok { IfOk result (λ plan. mixed_file_at kinds scan.old
        ≡ Ok (option_map (λ v. v.items) plan, scan.new)) }
    ensures fault { IfErr result (λ fault. fault ≢ PlanText.Memory →
        or_bad (mixed_file_at kinds scan.old) ≡ Err fault) }
{
    scan.word(b"evroute mixed plan 1\n")?;
    if scan.choose(b"none\n")? {
        return Ok(None);
    }
    scan.word(b"routes ")?;
    let routes = take_routes(alloc, kinds, scan)?;
    Ok(Some(routes))
}

/// Takes the number of routes, the line feed behind it, and their lines.
fn take_routes(
    alloc: Global,
    kinds: usize,
    scan: &mut Scan<'_>,
) -> Result<Vec<MixedRoute>, PlanText>
    requires { 1 ≤ kinds }
    ensures ok { IfOk result (λ routes. mixed_routes_at kinds scan.old
        ≡ Ok (routes.items, scan.new)) }
    ensures fault { IfErr result (λ fault. fault ≢ PlanText.Memory →
        or_bad (mixed_routes_at kinds scan.old) ≡ Err fault) }
{
    let count = scan.whole(MOST_ROUTES)?;
    scan.word(b"\n")?;
    take_each_route(alloc, kinds, scan, count)
}

/// Takes the lines of `count` routes.
fn take_each_route(
    alloc: Global,
    kinds: usize,
    scan: &mut Scan<'_>,
    count: u128,
) -> Result<Vec<MixedRoute>, PlanText>
    requires { 1 ≤ kinds }
    ensures ok { IfOk result (λ routes. so_many count (mixed_route_at kinds) scan.old
        ≡ Ok (routes.items, scan.new)) }
    ensures fault { IfErr result (λ fault. fault ≢ PlanText.Memory →
        or_bad (so_many count (mixed_route_at kinds) scan.old) ≡ Err fault) }
{
    let mut routes = Vec::new(alloc);
    for _ in 0..count {
        let route = take_route(alloc, kinds, scan)?;
        routes.push(route)?;
    }
    Ok(routes)
}

/// Takes the line of a route: the number of its kind, and its stops.
fn take_route(alloc: Global, kinds: usize, scan: &mut Scan<'_>) -> Result<MixedRoute, PlanText>
    requires { 1 ≤ kinds }
    ensures ok { IfOk result (λ route. mixed_route_at kinds scan.old ≡ Ok (route, scan.new)) }
    ensures fault { IfErr result (λ fault. fault ≢ PlanText.Memory →
        or_bad (mixed_route_at kinds scan.old) ≡ Err fault) }
{
    scan.word(b"kind ")?;
    let kind = scan.whole(kinds as u128 - 1)? as usize;
    scan.word(b" route ")?;
    let plan = take_stops(alloc, scan)?;
    Ok(MixedRoute { kind, plan })
}
