//! The search of `plan`, and the texts of what it finds.

ghost use Rattle.std.specs.Prelude.{◌≡◌, ◌≢◌, ◌&&◌, false, IfOk, IfSome, IsTrue, Some, option_map};
ghost use Rattle.ev_model.specs.Fleet.{IsFleetPlan};
ghost use Rattle.evgap_run.specs.PlanAnswer.{IsPlanFound, alone_in, found_cause, plan_heard, plan_status};
ghost use Rattle.evgap_run.specs.Report.{IsSmallCost, found_text};
ghost use Rattle.gap_search.specs.Gap.{cost_held, plan_held};
ghost use Rattle.plan_check.specs.FleetRules.{stops_of};
ghost use Rattle.report_lines.specs.Lines.{IsBoundOf};
ghost use Rattle.route_improve.specs.Improved.{IsOrderly};
ghost use Rattle.tree_text.specs.BoundProofs.{TakesCustomers, bound_proof_text};

use crate::cause::Cause;
use crate::report::push_found;
use fleet_steps::{cost_of, plan_text};
use gap_search::{BoundProof, GapClock, GapOptions, GapWatcher, Improved, MoveClock, close_gap};
use instance_reader::Instance;
use job_frame::{Answer, Planned, Status};
use plan_check::LargeFault;
use route_plan::FleetPlan;
use std::alloc::{AllocError, Global};
use tree_text::push_bound_proof;

/// What a search finds that begins with a plan, or with none: the texts of a plan and of a proof,
/// and the report on both.
///
/// Unless its cause is [`Cause::MovesEnded`] it is what is found where no clock may end the moves;
/// and that comes only where the clock said that it does.
pub fn plan_all<C: GapClock, W: GapWatcher>(
    alloc: Global,
    inst: &Instance,
    start: Option<&FleetPlan>,
    options: GapOptions,
    clock: &mut C,
    watcher: &mut W,
) -> Result<Planned<Cause>, AllocError>
    requires { IfSome start (λ plan. IsFleetPlan inst.now 1 (stops_of plan.now.routes)) }
    ensures found { IfOk result (λ p. IsPlanFound inst.now
        (option_map (λ plan. plan.now) start.entry) options.ends_moves
        p.plan.items p.cert.items p.answer.status p.answer.text.items) }
    ensures settled { IfOk result (λ p. p.answer.cause ≢ Some Cause.MovesEnded
        → IsPlanFound inst.now (option_map (λ plan. plan.now) start.entry) false
        p.plan.items p.cert.items p.answer.status p.answer.text.items) }
    ensures ended { IfOk result (λ p. p.answer.cause ≡ Some Cause.MovesEnded
        → IsTrue (C.has_ended clock.new)) }
    ensures heard { IfOk result (λ p. plan_heard options.ends_moves
        p.answer.status p.answer.text.items p.answer.cause) }
{
    // That the instance's network is one is told by its calls.
    let _nodes = inst.nodes();
    let outcome = close_gap(alloc, inst, start, options, clock, watcher)?;
    let cost = held_cost(alloc, inst, &outcome.plan)?;
    let answer = report(
        alloc,
        inst,
        alone_in(&outcome.plan),
        cost,
        outcome.proof.bound(),
        moves_ended(options.ends_moves, clock),
    )?;
    let plan = plan_text(alloc, plan_held(&outcome.plan))?;
    let cert = proof_text(alloc, inst, &outcome.proof)?;
    Ok(Planned { plan, cert, answer })
}

/// Whether a clock ended the moves: it may, and said that their time is up.
fn moves_ended<C: MoveClock>(may_end: bool, clock: &C) -> bool
    ensures { result ≡ (may_end && C.has_ended clock.now) }
{
    may_end && clock.has_ended()
}

/// The plan that is held.
fn plan_held(held: &Improved) -> Option<&FleetPlan>
    ensures { option_map (λ p. p.now) result ≡ plan_held held.now }
{
    match held {
        Improved::Plan(plan) => Some(plan),
        Improved::Alone(_) => None,
    }
}

/// The customer whom no route of his own reaches, where no plan is held.
fn alone_in(held: &Improved) -> Option<usize>
    ensures { result ≡ alone_in held.now }
{
    match held {
        Improved::Plan(_) => None,
        Improved::Alone(node) => Some(*node),
    }
}

/// What the plan that is held costs.
fn held_cost(alloc: Global, inst: &Instance, held: &Improved) -> Result<Option<u128>, AllocError>
    requires { IfSome (plan_held held.now) (λ p. IsOrderly inst.now p.routes) }
    ensures cost { IfOk result (λ cost. cost ≡ cost_held inst.now held.now) }
    ensures small { IfOk result IsSmallCost }
{
    match cost_of(alloc, inst, plan_held(held)) {
        Ok(cost) => Ok(cost),
        Err(LargeFault::Memory) => Err(AllocError),
        // A fleet plan breaks no rule.
        Err(LargeFault::Plan { .. }) => unreachable!(),
    }
}

/// The report on what was found, and the status that goes with it.
fn report(
    alloc: Global,
    inst: &Instance,
    alone: Option<usize>,
    cost: Option<u128>,
    bound: Option<u128>,
    ended: bool,
) -> Result<Answer<Cause>, AllocError>
    requires bound { IsBoundOf cost bound }
    requires small { IsSmallCost cost }
    ensures status { IfOk result (λ a. a.status ≡ plan_status cost bound) }
    ensures text { IfOk result
        (λ a. a.text.items ≡ found_text inst.now.denominator alone cost bound) }
    ensures cause { IfOk result (λ a. a.cause ≡ found_cause alone bound ended) }
{
    let mut text = Vec::new(alloc);
    push_found(alloc, &mut text, inst, alone, cost, bound)?;
    Ok(Answer {
        status: plan_status(cost, bound),
        text,
        cause: found_cause(alone, bound, ended),
    })
}

/// What the first line tells, that there is no fleet plan, or which customer is out of reach; or that
/// the clock ended the moves.
fn found_cause(alone: Option<usize>, bound: Option<u128>, ended: bool) -> Option<Cause>
    ensures { result ≡ found_cause alone bound ended }
{
    match (bound, alone) {
        (None, _) => Some(Cause::NoFleet),
        (Some(_), Some(node)) => Some(Cause::Alone(node)),
        (Some(_), None) if ended => Some(Cause::MovesEnded),
        (Some(_), None) => None,
    }
}

/// The status beside a cost and a bound.
fn plan_status(cost: Option<u128>, bound: Option<u128>) -> Status
    ensures { result ≡ plan_status cost bound }
{
    match (cost, bound) {
        (_, None) => Status::Negative,
        (Some(cost), Some(bound)) if cost == bound => Status::Done,
        (_, Some(_)) => Status::Stopped,
    }
}

/// The text of a proof.
fn proof_text(alloc: Global, inst: &Instance, proof: &BoundProof) -> Result<Vec<u8>, AllocError>
    requires { TakesCustomers inst.now proof.now }
    ensures { IfOk result (λ text. text.items ≡ bound_proof_text inst.now proof.now) }
{
    let mut text = Vec::new(alloc);
    push_bound_proof(alloc, &mut text, inst, proof)?;
    Ok(text)
}
