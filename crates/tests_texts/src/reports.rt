//! The lines that commands put, each kind of report once.

use crate::asserting::assert_text;
use ev_list::Listed;
use ev_model::Stop;
use instance_reader::{Instance, read_instance};
use plan_writer::{
    Judgement, Outcomes, Refusal, RootLine, push_check_report, push_fixed, push_fleet_report,
    push_make_report, push_refusal,
};
use route_plan::RoutePlan;
use std::alloc::Global;
use worked_instances::ONE_STATION;

/// Another limit of an instance.
const LIMIT: u64 = 100;

/// The instance with one station, within the limit.
fn limited(alloc: Global) -> Option<Instance> {
    let inst = read_instance(alloc, ONE_STATION.as_bytes()).ok()?;
    inst.with_limit(LIMIT).ok()
}

/// A stop.
fn stop(node: usize, added: u64, via: bool) -> Stop {
    Stop { node, added, via }
}

/// The plan that charges one unit on the way to the customer.
fn charged(alloc: Global) -> Option<RoutePlan> {
    let stops = [
        stop(0, 0, false),
        stop(2, 1, true),
        stop(1, 0, false),
        stop(0, 0, false),
    ];
    Some(RoutePlan {
        stops: Listed::from_vec(Vec::from_array(alloc, stops).ok()?),
    })
}

/// The lines of a route, of a made instance, of a search, of a certificate that is accepted, and of
/// a refused limit.
fn lines(alloc: Global) -> Option<Vec<u8>> {
    let inst = limited(alloc)?;
    let plan = charged(alloc)?;
    let mut out = Vec::new(alloc);
    push_fixed(alloc, &mut out, &inst, Some((&plan, 43))).ok()?;
    push_make_report(alloc, &mut out, &inst, Some(43)).ok()?;
    let outcomes = Outcomes {
        cost: Some(48),
        bound: Some(34),
        root: RootLine::exact(66, 2, &inst),
        stopped: Some(1),
    };
    push_fleet_report(alloc, &mut out, &inst, &outcomes).ok()?;
    let accepted = Judgement::Accepted {
        cost: Some(43),
        bound: Some(40),
    };
    push_check_report(alloc, &mut out, &inst, &accepted).ok()?;
    push_refusal(alloc, &mut out, &Refusal::Limit(inst.limit())).ok()?;
    Some(out)
}

#[test]
fn reports_are_written_one_behind_another(rt: HostRuntime) {
    const LINES: &str =
        "time 43/2\nat 0\nvia 2 charge 1\nat 1\nat 0\nnodes 3\ndenominator 2\ntime 43/2\ncost 48/2\nbound 34/2\ngap 14/2\nroot exact 33/2\nnodes 1\naccepted\ncost 43/2\nbound 40/2\ngap 3/2\nrefused limit 100\n";
    assert_text(&rt, lines(rt.alloc()), LINES);
}
