//! A plan: its texts, and what rounding leaves of it.

ghost use Rattle.std.specs.Prelude.{◌≡◌, IfSome};
ghost use Rattle.ev_model.specs.Feasible.{IsFeasible};

use ev_list::Listed;
use instance_reader::{Instance, read_instance};
use rounding_law::{best_rounding, rounded};
use route_plan::{
    FracPlan, RoutePlan, push_fleet_plan, push_plan, read_fleet_plan, read_plan, walk,
};
use std::alloc::Global;
use worked_instances::ONE_STATION;

/// The line of a plan that charges one unit on the way to the customer.
const LINE: &str = "route 0 v2+1 1 0\n";

/// The same as the file of a fleet plan.
const FILE: &str = "evroute plan 1\nroutes 1\nroute 0 v2+1 1 0\n";

/// The line as it is read and written, behind it the file, and one of no plan.
fn written(alloc: Global) -> Option<Vec<u8>> {
    let mut out = Vec::new(alloc);
    let fleet = read_fleet_plan(alloc, FILE.as_bytes()).ok()??;
    let plan = read_plan(alloc, LINE.as_bytes()).ok()?;
    push_plan(alloc, &mut out, &plan).ok()?;
    push_fleet_plan(alloc, &mut out, Some(&fleet)).ok()?;
    push_fleet_plan(alloc, &mut out, None).ok()?;
    Some(out)
}

#[test]
fn plans_are_written_as_they_are_read(rt: HostRuntime) {
    let found = written(rt.alloc()).expect(&rt, "a text");
    let wanted =
        "route 0 v2+1 1 0\nevroute plan 1\nroutes 1\nroute 0 v2+1 1 0\nevroute plan 1\nnone\n";
    assert_eq!(rt; found.as_slice(), wanted.as_bytes());
}

/// The plan in whole units, where it is feasible.
fn whole_plan(alloc: Global, inst: &Instance) -> Option<FracPlan>
    ensures whole { IfSome result (λ p. p.k ≡ 1) }
    ensures feasible { IfSome result (λ p. IsFeasible inst.now p.k 10 p.stops) }
{
    let RoutePlan { stops } = read_plan(alloc, LINE.as_bytes()).ok()?;
    let stops = stops.into_vec();
    let Ok(_end) = walk(inst, 10, stops.as_slice()) else {
        return None;
    };
    Some(FracPlan {
        k: 1,
        stops: Listed::from_vec(stops),
    })
}

/// How many stops the plan has behind each rounding, of which there is one.
fn stops_left(alloc: Global, inst: &Instance) -> Option<(usize, usize)> {
    let plan = whole_plan(alloc, inst)?;
    let only = rounded(alloc, &plan, 0, 10, inst).ok()?;
    let best = best_rounding(alloc, inst, 10, &plan).ok()?;
    Some((only.stops.len(), best.stops.len()))
}

#[test]
fn a_whole_plan_stays_as_it_is(rt: HostRuntime) {
    let alloc = rt.alloc();
    let inst = read_instance(alloc, ONE_STATION.as_bytes()).expect(&rt, "an instance");
    assert_eq!(rt; stops_left(alloc, &inst), Some((4, 4)));
}
