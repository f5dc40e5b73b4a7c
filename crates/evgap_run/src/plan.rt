//! What `plan` finds: a fleet is planned with a close bound, and its plan and the proof of the
//! bound are written.

ghost use Rattle.std.specs.Prelude.{◌≡◌, ◌∷◌, [], IfErr, IfOk, IfSome, List, None, Some, is_some, map, option_map, ℕ};
ghost use Rattle.ev_model.specs.Fleet.{IsFleetPlan};
ghost use Rattle.evgap_run.specs.PlanAnswer.{HasPlanJob, PlanAnswers, plan_heard, plan_task};
ghost use Rattle.gap_words.specs.JobValue.{IsPlanJob, plan_value};
ghost use Rattle.job_frame.specs.Asks.{Asks};
ghost use Rattle.job_frame.specs.Finds.{Finds, written_by};
ghost use Rattle.job_frame.specs.LimitedNetwork.{HasNetwork};
ghost use Rattle.job_frame.specs.Task.{AreReadUpTo};
ghost use Rattle.job_frame.specs.Caps.{most_bytes};
ghost use Rattle.plan_check.specs.FleetRules.{stops_of};

use crate::cause::Cause;
use crate::clock::JobClock;
use crate::planning::plan_all;
use ev_outside::{Shelf, ShelfFault};
use fleet_steps::{cost_of, plan_of, reject};
use gap_search::{GapClock, GapOptions, GapWatcher, Recreation};
use gap_words::PlanWords;
use instance_reader::Instance;
use job_frame::{
    Ended, Found, MOST_BYTES, ScaleWatcher, ask_file, limited_instance, read_file, refuse_job,
};
use plan_check::LargeFault;
use route_plan::FleetPlan;
use std::alloc::{AllocError, Global};

/// What `plan` finds: it is asked whether both files can be written, and the instance is read, then
/// the plan to begin with where a file is named; then a fleet is planned, and its plan and a proof
/// of a bound on its cost are written.
pub fn plan<S: Shelf, C: JobClock, W: GapWatcher + ScaleWatcher>(
    alloc: Global,
    job: &PlanWords,
    shelf: &mut S,
    clock: &mut C,
    watcher: &mut W,
) -> Result<Found<Cause>, ShelfFault>
    requires { IsPlanJob job.now }
    ensures { Finds (plan_task (plan_value job.now))
        (S.state shelf.old) (S.state shelf.new) result }
{
    match ask_both(job, shelf) {
        Ok(()) => plan_asked(alloc, job, shelf, clock, watcher),
        Err(fault) => Err(fault),
    }
}

/// Asks whether the files of the plan and of the proof can be written.
fn ask_both<S: Shelf>(job: &PlanWords, shelf: &mut S) -> Result<(), ShelfFault>
    ensures { Asks (plan_task (plan_value job.now)).asks
        (S.state shelf.old) (S.state shelf.new) result }
{
    match ask_file(job.plan.as_str(), shelf) {
        Ok(()) => ask_file(job.proof.as_str(), shelf),
        Err(fault) => Err(fault),
    }
}

/// What `plan` finds behind the question whether its files can be written.
fn plan_asked<S: Shelf, C: JobClock, W: GapWatcher + ScaleWatcher>(
    alloc: Global,
    job: &PlanWords,
    shelf: &mut S,
    clock: &mut C,
    watcher: &mut W,
) -> Result<Found<Cause>, ShelfFault>
    requires { IsPlanJob job.now }
    ensures { Finds (plan_task (plan_value job.now))
        (S.state shelf.old) (S.state shelf.new) result }
{
    let bytes = match read_file(alloc, job.file.as_str(), MOST_BYTES, shelf) {
        Ok(bytes) => bytes,
        Err(fault) => return Err(fault),
    };
    match limited_instance(alloc, bytes.as_slice(), job.limit) {
        Ok(inst) => {
            clock.begin(job.seconds);
            watcher.begin(inst.denominator());
            plan_on(alloc, &inst, job, shelf, clock, watcher)
        }
        Err(Ended::Refused(refusal)) => refuse_job(alloc, refusal),
        Err(Ended::Memory) => Err(ShelfFault::Memory),
    }
}

/// What `plan` finds on the instance of its file, beside a clock that was begun with the seconds of
/// the words: the plan to begin with is read, where a file is named.
fn plan_on<S: Shelf, C: JobClock, W: GapWatcher>(
    alloc: Global,
    inst: &Instance,
    job: &PlanWords,
    shelf: &mut S,
    clock: &mut C,
    watcher: &mut W,
) -> Result<Found<Cause>, ShelfFault>
    requires files { IsPlanJob job.now }
    requires begun { C.Begun clock.now job.now.seconds }
    ensures { (bytes : List ℕ)
        → AreReadUpTo most_bytes (S.state shelf.old).files (plan_value job.now).file bytes
        → HasNetwork job.now.limit bytes inst.now
        → Finds (plan_task (plan_value job.now))
        (S.state shelf.old) (S.state shelf.new) result }
{
    match &job.start {
        Some(name) => plan_from_file(alloc, inst, name.as_str(), job, shelf, clock, watcher),
        None => plan_from_none(alloc, inst, job, clock, watcher),
    }
}

/// What `plan` finds where the file of the plan to begin with has this name.
fn plan_from_file<S: Shelf, C: GapClock, W: GapWatcher>(
    alloc: Global,
    inst: &Instance,
    name: &str,
    job: &PlanWords,
    shelf: &mut S,
    clock: &mut C,
    watcher: &mut W,
) -> Result<Found<Cause>, ShelfFault>
    requires { IsPlanJob job.now }
    ensures { (bytes : List ℕ)
        → AreReadUpTo most_bytes (S.state shelf.old).files (plan_value job.now).file bytes
        → HasNetwork job.now.limit bytes inst.now
        → (plan_value job.now).start ≡ Some name.now
        → Finds (plan_task (plan_value job.now))
        (S.state shelf.old) (S.state shelf.new) result }
{
    let bytes = match read_file(alloc, name, MOST_BYTES, shelf) {
        Ok(bytes) => bytes,
        Err(fault) => return Err(fault),
    };
    plan_from_text(alloc, inst, bytes.as_slice(), job, clock, watcher)
}

/// What is found where no file with a plan to begin with is named.
fn plan_from_none<C: GapClock, W: GapWatcher>(
    alloc: Global,
    inst: &Instance,
    job: &PlanWords,
    clock: &mut C,
    watcher: &mut W,
) -> Result<Found<Cause>, ShelfFault>
    requires { IsPlanJob job.now }
    ensures answers { (bytes : List ℕ) (more : List (List ℕ))
        → HasPlanJob (plan_value job.now) bytes more inst.now None
        → IfOk result (λ f. PlanAnswers (plan_value job.now) bytes more
        f.answer.status (map written_by f.files.items) f.answer.text.items) }
    ensures heard { IfOk result
        (λ f. plan_heard (is_some job.now.seconds) f.answer.status f.answer.text.items
        f.answer.cause) }
    ensures memory { IfErr result (λ fault. fault ≡ ShelfFault.Memory) }
{
    match plan_from(alloc, inst, None, job, clock, watcher) {
        Ok(found) => Ok(found),
        Err(AllocError) => Err(ShelfFault::Memory),
    }
}

/// What is found for the bytes of the file of the plan to begin with: it is read, and a fleet is
/// planned.
fn plan_from_text<C: GapClock, W: GapWatcher>(
    alloc: Global,
    inst: &Instance,
    bytes: &[u8],
    job: &PlanWords,
    clock: &mut C,
    watcher: &mut W,
) -> Result<Found<Cause>, ShelfFault>
    requires { IsPlanJob job.now }
    ensures answers { (file name : List ℕ) → HasNetwork job.now.limit file inst.now
        → (plan_value job.now).start ≡ Some name
        → IfOk result (λ f. PlanAnswers (plan_value job.now) file (bytes.now ∷ [])
        f.answer.status (map written_by f.files.items) f.answer.text.items) }
    ensures heard { IfOk result
        (λ f. plan_heard (is_some job.now.seconds) f.answer.status f.answer.text.items
        f.answer.cause) }
    ensures memory { IfErr result (λ fault. fault ≡ ShelfFault.Memory) }
{
    match plan_of(alloc, bytes) {
        Ok(start) => match plan_from(alloc, inst, start.as_ref(), job, clock, watcher) {
            Ok(found) => Ok(found),
            Err(AllocError) => Err(ShelfFault::Memory),
        },
        Err(Ended::Refused(refusal)) => refuse_job(alloc, refusal),
        Err(Ended::Memory) => Err(ShelfFault::Memory),
    }
}

/// What is found with a plan to begin with, or with none: it is judged, and a fleet is planned.
fn plan_from<C: GapClock, W: GapWatcher>(
    alloc: Global,
    inst: &Instance,
    start: Option<&FleetPlan>,
    job: &PlanWords,
    clock: &mut C,
    watcher: &mut W,
) -> Result<Found<Cause>, AllocError>
    requires { IsPlanJob job.now }
    ensures answers { (bytes : List ℕ) (more : List (List ℕ))
        → HasPlanJob (plan_value job.now) bytes more inst.now
        (option_map (λ p. p.now) start.entry)
        → IfOk result (λ f. PlanAnswers (plan_value job.now) bytes more
        f.answer.status (map written_by f.files.items) f.answer.text.items) }
    ensures heard { IfOk result
        (λ f. plan_heard (is_some job.now.seconds) f.answer.status f.answer.text.items
        f.answer.cause) }
{
    match cost_of(alloc, inst, start) {
        Ok(_was) => plan_judged(alloc, inst, start, job, clock, watcher),
        Err(LargeFault::Plan { fault }) => reject(alloc, fault),
        Err(LargeFault::Memory) => Err(AllocError),
    }
}

/// What is found with a fleet plan to begin with, or with none.
fn plan_judged<C: GapClock, W: GapWatcher>(
    alloc: Global,
    inst: &Instance,
    start: Option<&FleetPlan>,
    job: &PlanWords,
    clock: &mut C,
    watcher: &mut W,
) -> Result<Found<Cause>, AllocError>
    requires { IfSome start (λ plan. IsFleetPlan inst.now 1 (stops_of plan.now.routes)) }
    ensures answers { (bytes : List ℕ) (more : List (List ℕ))
        → HasPlanJob (plan_value job.now) bytes more inst.now
        (option_map (λ p. p.now) start.entry)
        → IfOk result (λ f. PlanAnswers (plan_value job.now) bytes more
        f.answer.status (map written_by f.files.items) f.answer.text.items) }
    ensures heard { IfOk result
        (λ f. plan_heard (is_some job.now.seconds) f.answer.status f.answer.text.items
        f.answer.cause) }
{
    let options = GapOptions {
        recreation: Recreation {
            seed: job.seed,
            effort: job.effort,
        },
        nodes: job.nodes,
        ends_moves: job.seconds.is_some(),
    };
    let planned = plan_all(alloc, inst, start, options, clock, watcher)?;
    planned.found(alloc, job.plan.as_str(), job.proof.as_str())
}
