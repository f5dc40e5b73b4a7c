//! What `check` finds: a plan file and a proof are judged on an instance.

ghost use Rattle.std.specs.Prelude.{List, Option, option_map, ℕ};
ghost use Rattle.evgap_run.specs.CheckAnswer.{check_task};
ghost use Rattle.fleet_steps.specs.PlanFile.{HasPlan};
ghost use Rattle.gap_words.specs.JobValue.{check_value};
ghost use Rattle.job_frame.specs.Finds.{Finds};
ghost use Rattle.job_frame.specs.LimitedNetwork.{HasNetwork};
ghost use Rattle.job_frame.specs.Task.{AreReadUpTo};
ghost use Rattle.job_frame.specs.Caps.{most_bytes};
ghost use Rattle.route_plan.specs.PlanTexts.{FitsFile};

use crate::cause::Cause;
use crate::judging::judge_text;
use ev_outside::{Shelf, ShelfFault};
use fleet_steps::plan_of;
use gap_words::CheckWords;
use instance_reader::Instance;
use job_frame::{
    Ended, Found, MOST_BYTES, MOST_CERTIFICATE_BYTES, limited_instance, read_file, refuse_job,
};
use route_plan::FleetPlan;
use std::alloc::{AllocError, Global};

/// What `check` finds: the instance is read, then the plan, then the proof; and then they are
/// judged.
pub fn check<S: Shelf>(
    alloc: Global,
    job: &CheckWords,
    shelf: &mut S,
) -> Result<Found<Cause>, ShelfFault>
    ensures { Finds (check_task (check_value job.now))
        (S.state shelf.old) (S.state shelf.new) result }
{
    let bytes = match read_file(alloc, job.file.as_str(), MOST_BYTES, shelf) {
        Ok(bytes) => bytes,
        Err(fault) => return Err(fault),
    };
    match limited_instance(alloc, bytes.as_slice(), job.limit) {
        Ok(inst) => check_on(alloc, &inst, job, shelf),
        Err(Ended::Refused(refusal)) => refuse_job(alloc, refusal),
        Err(Ended::Memory) => Err(ShelfFault::Memory),
    }
}

/// What `check` finds on the instance of its file: the plan is read, and then the proof.
fn check_on<S: Shelf>(
    alloc: Global,
    inst: &Instance,
    job: &CheckWords,
    shelf: &mut S,
) -> Result<Found<Cause>, ShelfFault>
    ensures { (bytes : List ℕ)
        → AreReadUpTo most_bytes (S.state shelf.old).files (check_value job.now).file bytes
        → HasNetwork job.now.limit bytes inst.now
        → Finds (check_task (check_value job.now))
        (S.state shelf.old) (S.state shelf.new) result }
{
    let bytes = match read_file(alloc, job.plan.as_str(), MOST_BYTES, shelf) {
        Ok(bytes) => bytes,
        Err(fault) => return Err(fault),
    };
    match plan_of(alloc, bytes.as_slice()) {
        Ok(plan) => check_plan(alloc, inst, plan.as_ref(), job, shelf),
        Err(Ended::Refused(refusal)) => refuse_job(alloc, refusal),
        Err(Ended::Memory) => Err(ShelfFault::Memory),
    }
}

/// What `check` finds on the instance and the plan of their files: the proof is read, and both are
/// judged.
fn check_plan<S: Shelf>(
    alloc: Global,
    inst: &Instance,
    plan: Option<&FleetPlan>,
    job: &CheckWords,
    shelf: &mut S,
) -> Result<Found<Cause>, ShelfFault>
    requires { FitsFile (option_map (λ p. p.now) plan) }
    ensures { (bytes plan_bytes : List ℕ)
        → AreReadUpTo most_bytes (S.state shelf.old).files (check_value job.now).file bytes
        → AreReadUpTo most_bytes (S.state shelf.old).files (check_value job.now).plan plan_bytes
        → HasPlan job.now.limit bytes plan_bytes inst.now (option_map (λ p. p.now) plan.entry)
        → Finds (check_task (check_value job.now))
        (S.state shelf.old) (S.state shelf.new) result }
{
    let bytes = match read_file(alloc, job.proof.as_str(), MOST_CERTIFICATE_BYTES, shelf) {
        Ok(bytes) => bytes,
        Err(fault) => return Err(fault),
    };
    match judge_text(alloc, inst, plan, bytes.as_slice()) {
        Ok(answer) => Ok(Found::alone(alloc, answer)),
        Err(AllocError) => Err(ShelfFault::Memory),
    }
}
