//! What a tree gives, beside what was held before it was grown.

ghost use Rattle.std.specs.Prelude.{◌≡◌, IfOk, IfSome, IsTrue};
ghost use Rattle.ev_model.specs.Fleet.{IsFleetPlan};
ghost use Rattle.gap_search.specs.After.{IsGrownAfter};
ghost use Rattle.gap_search.specs.Candidate.{IsNoWeaker};
ghost use Rattle.gap_search.specs.Gap.{plan_held};
ghost use Rattle.plan_check.specs.FleetRules.{stops_of};
ghost use Rattle.tree_text.specs.BoundProofs.{IsBoundShown, bound_of};

use crate::bound::{NearOrder, Root, grow_tree};
use crate::clock::GapClock;
use crate::judged::accepted;
use crate::offers::tell;
use crate::outcome::GapOutcome;
use crate::plans::{cheaper_of, improved, plan_of};
use crate::watcher::GapWatcher;
use instance_reader::Instance;
use route_improve::Improved;
use std::alloc::{AllocError, Global};
use tree_text::BoundProof;

/// A plan, or why none is held, and an accepted proof, once a tree was grown from what is known at
/// its root, where nodes for one are asked for and a gap is left.
#[tactic(auto, using(crate::proofs::Outcomes::grown_same, crate::proofs::Outcomes::no_weaker_same))]
pub(crate) fn with_tree<C: GapClock, W: GapWatcher>(
    alloc: Global,
    inst: &Instance,
    held: GapOutcome,
    root: Root,
    nodes: Option<u64>,
    clock: &mut C,
    watcher: &mut W,
) -> Result<GapOutcome, AllocError>
    requires plan { IfSome (plan_held held.plan) (λ plan. IsFleetPlan inst.now 1
        (stops_of plan.routes)) }
    requires proof { IsBoundShown inst.now held.proof }
    ensures plan { IfOk result (λ grown. IsGrownAfter inst.now held.plan grown.plan) }
    ensures proof { IfOk result (λ grown. IsBoundShown inst.now grown.proof) }
    ensures no_weaker { IfOk result
        (λ grown. IsNoWeaker (bound_of held.proof) (bound_of grown.proof)) }
{
    let GapOutcome { plan, proof } = held;
    let bound = proof.bound();
    match grow_tree(alloc, inst, &plan, bound, root, nodes, clock, watcher)? {
        Some(given) => {
            let plan = with_orders(alloc, inst, plan, given.orders, clock)?;
            let proof = stronger(alloc, inst, proof, given.proof)?;
            tell(inst, &plan, proof.bound(), watcher);
            Ok(GapOutcome { plan, proof })
        }
        None => Ok(GapOutcome { plan, proof }),
    }
}

/// What is held, or the plan of these routes, made cheaper by some moves, where it is one and costs
/// less, or where none is held.
#[tactic(auto, using(crate::proofs::Outcomes::grown_same))]
fn with_orders<C: GapClock>(
    alloc: Global,
    inst: &Instance,
    held: Improved,
    orders: Option<Vec<NearOrder>>,
    clock: &mut C,
) -> Result<Improved, AllocError>
    requires { IfSome (plan_held held) (λ plan. IsFleetPlan inst.now 1
        (stops_of plan.routes)) }
    ensures { IfOk result (IsGrownAfter inst.now held) }
{
    let Some(orders) = orders else {
        return Ok(held);
    };
    let Some(plan) = plan_of(alloc, inst, &orders)? else {
        return Ok(held);
    };
    let Some(other) = improved(alloc, inst, &plan, clock)? else {
        return Ok(held);
    };
    match held {
        Improved::Plan(plan) => Ok(Improved::Plan(cheaper_of(alloc, inst, plan, other)?)),
        Improved::Alone(_) => Ok(Improved::Plan(other)),
    }
}

/// The stronger one of an accepted proof and of a candidate, of which nothing is known: that one,
/// as it is read, where it is accepted and its bound is greater.
#[tactic(auto, using(crate::proofs::Outcomes::no_weaker_same))]
fn stronger(
    alloc: Global,
    inst: &Instance,
    held: BoundProof,
    candidate: Option<BoundProof>,
) -> Result<BoundProof, AllocError>
    requires { IsBoundShown inst.now held }
    ensures shown { IfOk result (IsBoundShown inst.now) }
    ensures no_weaker { IfOk result (λ proof. IsNoWeaker (bound_of held) (bound_of proof)) }
{
    let Some(candidate) = candidate else {
        return Ok(held);
    };
    if !is_weaker(held.bound(), candidate.bound()) {
        return Ok(held);
    }
    match accepted(alloc, inst, &candidate)? {
        Some(proof) if is_weaker(held.bound(), proof.bound()) => Ok(proof),
        _ => Ok(held),
    }
}

/// Whether a bound is below another; that there is no plan is above each number.
fn is_weaker(bound: Option<u128>, other: Option<u128>) -> bool
    ensures { IsTrue result → IsNoWeaker bound other }
{
    match (bound, other) {
        (None, _) => false,
        (Some(_), None) => true,
        (Some(bound), Some(other)) => bound < other,
    }
}
