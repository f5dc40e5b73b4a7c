//! The plan of a proof, and the bar that it sets.

ghost use Rattle.std.specs.Prelude.{◌≡◌, ◌+◌, ◌^◌, ◌≤◌, IfErr, IfOk};
ghost use Rattle.route_proof.specs.Following.{follows};
ghost use Rattle.route_proof.specs.Closed.{HasGoodPlan, bar};
ghost use Rattle.route_proof.specs.Verdicts.{IsVerdict};

use crate::{RouteProof, RouteVerdict};
use instance_reader::Instance;
use route_plan::{Stop, walk};

/// The bar of a proof, or the rule that its plan breaks.
pub(crate) fn bar_of(
    inst: &Instance,
    route: &[usize],
    start: u64,
    proof: &RouteProof,
) -> Result<u64, RouteVerdict>
    ensures bar { IfOk result (λ b. b
        ≡ bar (record { network = inst.now; route = route.now; start = start }) proof.now.plan) }
    ensures good { IfOk result (λ _. HasGoodPlan
        (record { network = inst.now; route = route.now; start = start }) proof.now.plan) }
    ensures broken { IfErr result (IsVerdict
        (record { network = inst.now; route = route.now; start = start }) proof.now) }
{
    let Some(plan) = &proof.plan else {
        return Ok(inst.scaled_limit() + 1);
    };
    match walk(inst, start, plan.stops.as_slice()) {
        Ok(walk) => {
            if !follows(route, plan.stops.as_slice()) {
                return Err(RouteVerdict::Other);
            }
            Ok(walk.time)
        }
        Err(fault) => Err(RouteVerdict::Plan { fault }),
    }
}

/// Whether the stops that were not inserted are at the nodes of the route, in order.
fn follows(route: &[usize], stops: &[Stop]) -> bool
    ensures { result ≡ follows route.now stops.now }
{
    let mut passed = 0;
    for stop in stops {
        if !stop.via {
            if passed >= route.len() || route[passed] != stop.node {
                return false;
            }
            passed += 1;
        }
    }
    passed == route.len()
}
