//! The proof for one route.

ghost use Rattle.std.specs.Prelude.{◌≡◌, ◌≤◌, IfOk, Option, map};
ghost use Rattle.ev_model.specs.Route.{IsRoute};
ghost use Rattle.fixed_certificate.specs.Labels.{label_of};
ghost use Rattle.route_plan.specs.declared.plan.RoutePlan.{RoutePlan};
ghost use Rattle.route_proof.specs.Closed.{IsAccepted, IsTrue};
ghost use Rattle.route_proof.specs.Ranges.{ProofFits};

use crate::labels::labels_of;
use ev_list::Listed;
use frvcp_labels::{Solved, reachable_states, solve_with_labels};
use instance_reader::Instance;
use route_plan::RoutePlan;
use route_proof::{RouteProof, RouteVerdict, check_route};
use route_steps::State;
use std::alloc::{AllocError, Global};

/// A proof with a fastest plan of the route for a vehicle that starts with the charge `start`, in
/// units of charge, or without one where no plan of the route is feasible: one that is accepted.
///
/// `route` holds the nodes of the route in order, from the depot to the depot. The plan is a whole
/// one than which no feasible plan in any fraction of a unit is faster; there is none exactly where
/// no plan of the route is feasible, in any fraction of a unit.
///
/// The labels are few: those of the search that may come home before the end of the plan, and for
/// each place on the way one for all vehicles that may not. They are judged; should they be
/// refused, which is not known to happen, all that a vehicle may come to is listed in their place.
pub fn prove_route(
    alloc: Global,
    inst: &Instance,
    route: &[usize],
    start: u64,
) -> Result<RouteProof, AllocError>
    requires route { IsRoute inst.now route.now }
    requires start { start ≤ inst.now.capacity }
    ensures fits { IfOk result (ProofFits inst.now route.now) }
    ensures accepted { IfOk result
        (IsAccepted (record { network = inst.now; route = route.now; start = start })) }
    ensures shows { IfOk result (λ p.
        IsTrue (record { network = inst.now; route = route.now; start = start }) p.plan) }
{
    let Solved { plan, states } = solve_with_labels(alloc, inst, route, start)?;
    let few = proof_of(alloc, plan, states)?;
    match check_route(alloc, inst, route, start, &few)? {
        RouteVerdict::Accepted => Ok(few),
        _ => with_all(alloc, inst, route, start, few),
    }
}

/// The proof with the same plan, and all that a vehicle may come to.
fn with_all(
    alloc: Global,
    inst: &Instance,
    route: &[usize],
    start: u64,
    few: RouteProof,
) -> Result<RouteProof, AllocError>
    requires route { IsRoute inst.now route.now }
    requires start { start ≤ inst.now.capacity }
    requires plan { IsTrue (record { network = inst.now; route = route.now; start = start })
        few.plan }
    ensures fits { IfOk result (ProofFits inst.now route.now) }
    ensures accepted { IfOk result
        (IsAccepted (record { network = inst.now; route = route.now; start = start })) }
    ensures shows { IfOk result (λ p.
        IsTrue (record { network = inst.now; route = route.now; start = start }) p.plan) }
{
    let states = reachable_states(alloc, inst, route, start)?;
    let RouteProof { plan, labels: _ } = few;
    proof_of(alloc, plan, states)
}

/// The proof with the labels of states.
fn proof_of(
    alloc: Global,
    plan: Option<RoutePlan>,
    states: Vec<State>,
) -> Result<RouteProof, AllocError>
    ensures { IfOk result (λ p.
        p ≡ record { plan = plan; labels = map label_of states.items }) }
{
    let labels = labels_of(alloc, states)?;
    Ok(RouteProof {
        plan,
        labels: Listed::from_vec(labels),
    })
}
