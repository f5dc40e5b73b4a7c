//! What `improve` finds: the plan of a file is made cheaper, and is written into another.

ghost use Rattle.std.specs.Prelude.{◌≡◌, ◌∷◌, [], IfErr, IfOk, List, None, Option, Some, map, option_map, string_bytes, ℕ};
ghost use Rattle.command_line.specs.JobValue.{job_value};
ghost use Rattle.command_line.specs.declared.Job.TheVariants.{Improve};
ghost use Rattle.ev_model.specs.Fleet.{cost_of};
ghost use Rattle.job_frame.specs.Caps.{most_bytes};
ghost use Rattle.fleet_steps.specs.PlanFile.{HasPlan, IsValid};
ghost use Rattle.evroute_run.specs.ImproveAnswer.{ImproveAnswers, improve_heard};
ghost use Rattle.job_frame.specs.LimitedNetwork.{HasNetwork};
ghost use Rattle.evroute_run.specs.Run.{task_of};
ghost use Rattle.job_frame.specs.Finds.{Finds, written_by};
ghost use Rattle.job_frame.specs.Task.{AreReadUpTo};
ghost use Rattle.plan_check.specs.FleetRules.{stops_of};
ghost use Rattle.route_improve.specs.Improved.{IsImproved};
ghost use Rattle.route_improve.specs.ImprovedText.{alone_text, improved_text};
ghost use Rattle.route_plan.specs.PlanTexts.{fleet_plan_text};

use crate::watcher::JobWatcher;
use command_line::ImproveWords;
use ev_outside::{Shelf, ShelfFault};
use evroute_causes::Cause;
use fleet_steps::{cost_of, plan_of, plan_text, reject};
use instance_reader::Instance;
use job_frame::{
    Answer, Ended, Found, MOST_BYTES, NewFile, Status, limited_instance, read_file, refuse_job,
};
use plan_check::{LargeFault, check_large};
use route_improve::{Improved, improve_watched, push_alone, push_improved};
use route_plan::FleetPlan;
use std::alloc::{AllocError, Global};

/// What `improve` finds: the instance is read, then the plan; and then this is made cheaper.
pub fn improve<S: Shelf, W: JobWatcher>(
    alloc: Global,
    job: &ImproveWords,
    shelf: &mut S,
    watcher: &mut W,
) -> Result<Found<Cause>, ShelfFault>
    ensures { Finds (task_of (job_value (Improve job.now)))
        (S.state shelf.old) (S.state shelf.new) result }
{
    let bytes = match read_file(alloc, job.file.as_str(), MOST_BYTES, shelf) {
        Ok(bytes) => bytes,
        Err(fault) => return Err(fault),
    };
    match limited_instance(alloc, bytes.as_slice(), job.limit) {
        Ok(inst) => improve_on(alloc, &inst, job, shelf, watcher),
        Err(Ended::Refused(refusal)) => refuse_job(alloc, refusal),
        Err(Ended::Memory) => Err(ShelfFault::Memory),
    }
}

/// What `improve` finds on the instance of its file: the plan is read, and made cheaper.
fn improve_on<S: Shelf, W: JobWatcher>(
    alloc: Global,
    inst: &Instance,
    job: &ImproveWords,
    shelf: &mut S,
    watcher: &mut W,
) -> Result<Found<Cause>, ShelfFault>
    ensures { (bytes : List ℕ)
        → AreReadUpTo most_bytes (S.state shelf.old).files (string_bytes job.now.file) bytes
        → HasNetwork job.now.limit bytes inst.now
        → Finds (task_of (job_value (Improve job.now)))
        (S.state shelf.old) (S.state shelf.new) result }
{
    let bytes = match read_file(alloc, job.plan.as_str(), MOST_BYTES, shelf) {
        Ok(bytes) => bytes,
        Err(fault) => return Err(fault),
    };
    improve_text(alloc, inst, bytes.as_slice(), job.outfile.as_str(), watcher)
}

/// What is found for the bytes of a plan file: the plan is read, and made cheaper.
fn improve_text<W: JobWatcher>(
    alloc: Global,
    inst: &Instance,
    bytes: &[u8],
    outfile: &str,
    watcher: &mut W,
) -> Result<Found<Cause>, ShelfFault>
    ensures answers { (limit : Option ℕ) (file : List ℕ) → HasNetwork limit file inst.now
        → IfOk result (λ f. ImproveAnswers limit outfile.now file bytes.now
        f.answer.status (map written_by f.files.items) f.answer.text.items) }
    ensures heard { IfOk result
        (λ f. improve_heard f.answer.status f.answer.text.items f.answer.cause) }
    ensures memory { IfErr result (λ fault. fault ≡ ShelfFault.Memory) }
{
    match plan_of(alloc, bytes) {
        Ok(plan) => match improve_plan(alloc, inst, plan.as_ref(), outfile, watcher) {
            Ok(found) => Ok(found),
            Err(AllocError) => Err(ShelfFault::Memory),
        },
        Err(Ended::Refused(refusal)) => refuse_job(alloc, refusal),
        Err(Ended::Memory) => Err(ShelfFault::Memory),
    }
}

/// What is found for a plan, or for none: it is judged, and made cheaper.
fn improve_plan<W: JobWatcher>(
    alloc: Global,
    inst: &Instance,
    plan: Option<&FleetPlan>,
    outfile: &str,
    watcher: &mut W,
) -> Result<Found<Cause>, AllocError>
    ensures answers { (limit : Option ℕ) (file plan_bytes : List ℕ)
        → HasPlan limit file plan_bytes inst.now (option_map (λ p. p.now) plan.entry)
        → IfOk result (λ f. ImproveAnswers limit outfile.now file plan_bytes
        f.answer.status (map written_by f.files.items) f.answer.text.items) }
    ensures heard { IfOk result
        (λ f. improve_heard f.answer.status f.answer.text.items f.answer.cause) }
{
    match cost_of(alloc, inst, plan) {
        Ok(was) => make_cheaper(alloc, inst, plan, was, outfile, watcher),
        Err(LargeFault::Plan { fault }) => reject(alloc, fault),
        Err(LargeFault::Memory) => Err(AllocError),
    }
}

/// What is found for a fleet plan of this cost, or for none: a cheaper plan, or a customer whom no
/// route of his own reaches.
fn make_cheaper<W: JobWatcher>(
    alloc: Global,
    inst: &Instance,
    plan: Option<&FleetPlan>,
    was: Option<u128>,
    outfile: &str,
    watcher: &mut W,
) -> Result<Found<Cause>, AllocError>
    requires { IsValid inst.now (option_map (λ p. p.now) plan) was }
    ensures answers { (limit : Option ℕ) (file plan_bytes : List ℕ)
        → HasPlan limit file plan_bytes inst.now (option_map (λ p. p.now) plan.entry)
        → IfOk result (λ f. ImproveAnswers limit outfile.now file plan_bytes
        f.answer.status (map written_by f.files.items) f.answer.text.items) }
    ensures heard { IfOk result
        (λ f. improve_heard f.answer.status f.answer.text.items f.answer.cause) }
{
    watcher.begin(inst.denominator());
    match improve_watched(alloc, inst, plan, watcher) {
        Ok(Improved::Plan(better)) => write_better(alloc, inst, &better, was, outfile),
        Ok(Improved::Alone(node)) => put_alone(alloc, node),
        Err(AllocError) => Err(AllocError),
    }
}

/// What is found where a plan became this one: it is written, and its cost and the cost before are
/// put.
fn write_better(
    alloc: Global,
    inst: &Instance,
    better: &FleetPlan,
    was: Option<u128>,
    outfile: &str,
) -> Result<Found<Cause>, AllocError>
    requires { IsImproved inst.now better.now.routes }
    ensures status { IfOk result (λ f. f.answer.status ≡ Status.Done) }
    ensures files { IfOk result (λ f. map written_by f.files.items
        ≡ record { name = outfile.now; bytes = fleet_plan_text (Some better.now) } ∷ []) }
    ensures text { IfOk result (λ f. f.answer.text.items ≡ improved_text inst.now.denominator
        (cost_of inst.now 1 (stops_of better.now.routes)) was) }
    ensures cause { IfOk result (λ f. f.answer.cause ≡ None) }
{
    let cost = cost_after(alloc, inst, better)?;
    let mut text = Vec::new(alloc);
    push_improved(alloc, &mut text, inst, cost, was)?;
    let bytes = plan_text(alloc, Some(better))?;
    let file = NewFile::new(alloc, outfile, bytes)?;
    let answer = Answer {
        status: Status::Done,
        text,
        cause: None,
    };
    Found::with_file(alloc, answer, file)
}

/// The cost of a plan that breaks no rule.
fn cost_after(alloc: Global, inst: &Instance, better: &FleetPlan) -> Result<u128, AllocError>
    requires { IsImproved inst.now better.now.routes }
    ensures { IfOk result (λ cost. cost ≡ cost_of inst.now 1 (stops_of better.now.routes)) }
{
    match check_large(alloc, inst, better) {
        Ok(cost) => Ok(cost),
        Err(LargeFault::Memory) => Err(AllocError),
        // A fleet plan breaks no rule.
        Err(LargeFault::Plan { .. }) => unreachable!(),
    }
}

/// The line of a customer whom no route of his own reaches.
fn put_alone(alloc: Global, node: usize) -> Result<Found<Cause>, AllocError>
    ensures status { IfOk result (λ f. f.answer.status ≡ Status.Negative) }
    ensures files { IfOk result (λ f. map written_by f.files.items ≡ []) }
    ensures text { IfOk result (λ f. f.answer.text.items ≡ alone_text node) }
    ensures cause { IfOk result (λ f. f.answer.cause ≡ Some (Cause.Alone node)) }
{
    let mut text = Vec::new(alloc);
    push_alone(alloc, &mut text, node)?;
    let answer = Answer {
        status: Status::Negative,
        text,
        cause: Some(Cause::Alone(node)),
    };
    Ok(Found::alone(alloc, answer))
}
