//! What `check-route` finds: a proof of one route of an instance is judged.

ghost use Rattle.std.specs.Prelude.{◌≡◌, ◌≤◌, IfErr, IfOk, IfSome, List, None, Some, string_bytes, ℕ};
ghost use Rattle.command_line.specs.JobValue.{job_value};
ghost use Rattle.command_line.specs.declared.Job.TheVariants.{CheckRoute};
ghost use Rattle.command_line.specs.declared.Options.{Options};
ghost use Rattle.ev_model.specs.Feasible.{IsFeasible};
ghost use Rattle.ev_model.specs.Route.{IsRoute};
ghost use Rattle.ev_model.specs.Time.{time_of};
ghost use Rattle.job_frame.specs.Caps.{most_bytes};
ghost use Rattle.evroute_run.specs.CheckRouteAnswer.{CheckRouteAnswers, check_route_heard, listed_time};
ghost use Rattle.evroute_run.specs.Ended.{IsCheckRouteEnded};
ghost use Rattle.job_frame.specs.Ended.{IsRuleOrMemory};
ghost use Rattle.evroute_run.specs.FixedAnswer.{IsTask, start_of};
ghost use Rattle.evroute_run.specs.Run.{task_of};
ghost use Rattle.job_frame.specs.Finds.{Finds};
ghost use Rattle.job_frame.specs.Task.{AreReadUpTo, IsAnswered};
ghost use Rattle.route_proof.specs.ProofIn.{SpellsProof, proof_in};
ghost use Rattle.route_proof.specs.VerdictText.{verdict_text};
ghost use Rattle.route_proof.specs.Ranges.{ProofFits};
ghost use Rattle.route_proof.specs.declared.verdict.RouteVerdict.TheVariants as verdict;

use crate::trip::{Trip, trip_of};
use command_line::ProofWords;
use ev_outside::{Shelf, ShelfFault};
use evroute_causes::Cause;
use instance_reader::Instance;
use job_frame::{
    Answer, Ended, Found, MOST_BYTES, MOST_CERTIFICATE_BYTES, Status, read_file, refuse, refuse_job,
};
use plan_writer::Refusal;
use route_plan::{RoutePlan, walk};
use route_proof::{CertText, RouteProof, RouteVerdict, push_route_verdict, read_proof};
use std::alloc::{AllocError, Global};

/// What `check-route` finds: the instance is read, then the proof; and then this is judged.
pub fn check_route<S: Shelf>(
    alloc: Global,
    job: &ProofWords,
    shelf: &mut S,
) -> Result<Found<Cause>, ShelfFault>
    ensures { Finds (task_of (job_value (CheckRoute job.now)))
        (S.state shelf.old) (S.state shelf.new) result }
{
    let bytes = match read_file(alloc, job.file.as_str(), MOST_BYTES, shelf) {
        Ok(bytes) => bytes,
        Err(fault) => return Err(fault),
    };
    match trip_of(alloc, bytes.as_slice(), job.route.as_str(), job.options) {
        Ok(trip) => check_trip(alloc, &trip, job, shelf),
        Err(Ended::Refused(refusal)) => refuse_job(alloc, refusal),
        Err(Ended::Memory) => Err(ShelfFault::Memory),
    }
}

/// What `check-route` finds on the route of its words: the proof is read, and judged.
fn check_trip<S: Shelf>(
    alloc: Global,
    trip: &Trip,
    job: &ProofWords,
    shelf: &mut S,
) -> Result<Found<Cause>, ShelfFault>
    requires route { IsRoute trip.now.inst trip.now.route.items }
    requires start { trip.now.start ≤ trip.now.inst.capacity }
    ensures { (bytes : List ℕ)
        → AreReadUpTo most_bytes (S.state shelf.old).files (string_bytes job.now.file) bytes
        → IsTask job.now.options (string_bytes job.now.route) bytes
        trip.now.inst trip.now.route.items
        → trip.now.start ≡ start_of trip.now.inst job.now.options.charge
        → Finds (task_of (job_value (CheckRoute job.now)))
        (S.state shelf.old) (S.state shelf.new) result }
{
    let bytes = match read_file(alloc, job.cert.as_str(), MOST_CERTIFICATE_BYTES, shelf) {
        Ok(bytes) => bytes,
        Err(fault) => return Err(fault),
    };
    let judged = judge_text(
        alloc,
        &trip.inst,
        trip.route.as_slice(),
        trip.start,
        bytes.as_slice(),
    );
    match judged {
        Ok(answer) => Ok(Found::alone(alloc, answer)),
        Err(AllocError) => Err(ShelfFault::Memory),
    }
}

/// The answer to the bytes of a proof: they are read, and judged.
fn judge_text(
    alloc: Global,
    inst: &Instance,
    route: &[usize],
    start: u64,
    bytes: &[u8],
) -> Result<Answer<Cause>, AllocError>
    requires route { IsRoute inst.now route.now }
    requires start { start ≤ inst.now.capacity }
    ensures answered { IfOk result (λ a. IsAnswered a.status) }
    ensures answers { (options : Options) (word file : List ℕ)
        → IsTask options word file inst.now route.now
        → start ≡ start_of inst.now options.charge
        → IfOk result (λ a.
        CheckRouteAnswers options word file bytes.now a.status a.text.items) }
    ensures heard { IfOk result (λ a. check_route_heard a.status a.text.items a.cause) }
{
    match proof_of(alloc, inst, route, bytes) {
        Ok(proof) => judge(alloc, inst, route, start, &proof),
        Err(Ended::Refused(refusal)) => refuse(alloc, refusal),
        Err(Ended::Memory) => Err(AllocError),
    }
}

/// The proof of a file.
fn proof_of(
    alloc: Global,
    inst: &Instance,
    route: &[usize],
    bytes: &[u8],
) -> Result<RouteProof, Ended>
    requires { IsRoute inst.now route.now }
    ensures read { IfOk result (λ p. proof_in inst.now route.now bytes.now ≡ Ok p) }
    ensures spelled { IfOk result (SpellsProof inst.now route.now bytes.now) }
    ensures fits { IfOk result (ProofFits inst.now route.now) }
    ensures rule { IfErr result IsRuleOrMemory }
    ensures ended { (options : Options) (word file : List ℕ)
        → IsTask options word file inst.now route.now
        → IfErr result (IsCheckRouteEnded options word file bytes.now) }
{
    match read_proof(alloc, inst, route, bytes) {
        Ok(proof) => Ok(proof),
        Err(CertText::Memory) => Err(Ended::Memory),
        Err(fault) => Err(Ended::Refused(Refusal::Certificate(fault))),
    }
}

/// The answer to a proof: it is accepted, or breaks a rule.
fn judge(
    alloc: Global,
    inst: &Instance,
    route: &[usize],
    start: u64,
    proof: &RouteProof,
) -> Result<Answer<Cause>, AllocError>
    requires route { IsRoute inst.now route.now }
    requires start { start ≤ inst.now.capacity }
    requires fits { ProofFits inst.now route.now proof.now }
    ensures answered { IfOk result (λ a. IsAnswered a.status) }
    ensures answers { (options : Options) (word file bytes : List ℕ)
        → IsTask options word file inst.now route.now
        → start ≡ start_of inst.now options.charge
        → proof_in inst.now route.now bytes ≡ Ok proof.now
        → SpellsProof inst.now route.now bytes proof.now
        → IfOk result (λ a. CheckRouteAnswers options word file bytes a.status a.text.items) }
    ensures heard { IfOk result (λ a. check_route_heard a.status a.text.items a.cause) }
{
    let verdict = fixed_certificate::check_route(alloc, inst, route, start, proof)?;
    match verdict {
        RouteVerdict::Accepted => accept(alloc, inst, start, &proof.plan),
        _ => reject(alloc, inst, &verdict),
    }
}

/// The lines of an accepted proof.
fn accept(
    alloc: Global,
    inst: &Instance,
    start: u64,
    plan: &Option<RoutePlan>,
) -> Result<Answer<Cause>, AllocError>
    requires { IfSome plan.now (λ p. IsFeasible inst.now 1 start p.stops) }
    ensures status { IfOk result (λ a. a.status ≡ Status.Done) }
    ensures text { IfOk result (λ a. a.text.items ≡ verdict_text inst.now.denominator
        (listed_time inst.now start plan.now) verdict.Accepted) }
    ensures cause { IfOk result (λ a. a.cause ≡ None) }
{
    let time = time_listed(inst, start, plan);
    let mut text = Vec::new(alloc);
    push_route_verdict(alloc, &mut text, inst, time, &RouteVerdict::Accepted)?;
    Ok(Answer {
        status: Status::Done,
        text,
        cause: None,
    })
}

/// The time of a plan, where there is one.
fn time_listed(inst: &Instance, start: u64, plan: &Option<RoutePlan>) -> Option<u64>
    requires { IfSome plan.now (λ p. IsFeasible inst.now 1 start p.stops) }
    ensures { result ≡ listed_time inst.now start plan.now }
{
    match plan {
        Some(plan) => Some(time_along(inst, start, plan)),
        None => None,
    }
}

/// The time of a feasible plan.
fn time_along(inst: &Instance, start: u64, plan: &RoutePlan) -> u64
    requires { IsFeasible inst.now 1 start plan.now.stops }
    ensures { result ≡ time_of inst.now 1 start plan.now.stops }
{
    let Ok(walk) = walk(inst, start, plan.stops.as_slice()) else {
        // A feasible plan is walked to its end.
        unreachable!()
    };
    walk.time
}

/// The line of the first rule that a proof breaks.
fn reject(
    alloc: Global,
    inst: &Instance,
    verdict: &RouteVerdict,
) -> Result<Answer<Cause>, AllocError>
    ensures status { IfOk result (λ a. a.status ≡ Status.Negative) }
    ensures text { IfOk result (λ a. a.text.items
        ≡ verdict_text inst.now.denominator None verdict.now) }
    ensures cause { IfOk result (λ a. a.cause ≡ Some (Cause.Route verdict.now)) }
{
    let mut text = Vec::new(alloc);
    push_route_verdict(alloc, &mut text, inst, None, verdict)?;
    Ok(Answer {
        status: Status::Negative,
        text,
        cause: Some(Cause::Route(*verdict)),
    })
}
