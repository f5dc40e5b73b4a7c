//! What `check` finds: a plan file and a certificate are judged on an instance.

ghost use Rattle.std.specs.Prelude.{◌≤◌, List, option_map, string_bytes, ℕ};
ghost use Rattle.bound_certificate.specs.Ranges.{customer_count};
ghost use Rattle.command_line.specs.JobValue.{job_value};
ghost use Rattle.command_line.specs.declared.Job.TheVariants.{Check};
ghost use Rattle.job_frame.specs.Caps.{most_bytes};
ghost use Rattle.instance_reader.specs.Instance.{most_customers};
ghost use Rattle.fleet_steps.specs.PlanFile.{HasFleet};
ghost use Rattle.fleet_steps.specs.FleetNetwork.{HasFleetNetwork};
ghost use Rattle.evroute_run.specs.Run.{task_of};
ghost use Rattle.job_frame.specs.Finds.{Finds};
ghost use Rattle.job_frame.specs.Task.{AreReadUpTo};

use crate::judging::judge_text;
use command_line::CheckWords;
use ev_outside::{Shelf, ShelfFault};
use evroute_causes::Cause;
use fleet_steps::{fleet_instance, plan_of};
use instance_reader::Instance;
use job_frame::{Ended, Found, MOST_BYTES, MOST_CERTIFICATE_BYTES, read_file, refuse_job};
use route_plan::FleetPlan;
use std::alloc::{AllocError, Global};

/// What `check` finds: the instance is read, then the plan, then the certificate; and then they are
/// judged.
pub fn check<S: Shelf>(
    alloc: Global,
    job: &CheckWords,
    shelf: &mut S,
) -> Result<Found<Cause>, ShelfFault>
    ensures { Finds (task_of (job_value (Check job.now)))
        (S.state shelf.old) (S.state shelf.new) result }
{
    let bytes = match read_file(alloc, job.file.as_str(), MOST_BYTES, shelf) {
        Ok(bytes) => bytes,
        Err(fault) => return Err(fault),
    };
    match fleet_instance(alloc, bytes.as_slice(), job.limit) {
        Ok(inst) => check_on(alloc, &inst, job, shelf),
        Err(Ended::Refused(refusal)) => refuse_job(alloc, refusal),
        Err(Ended::Memory) => Err(ShelfFault::Memory),
    }
}

/// What `check` finds on the instance of its file: the plan is read, and then the certificate.
fn check_on<S: Shelf>(
    alloc: Global,
    inst: &Instance,
    job: &CheckWords,
    shelf: &mut S,
) -> Result<Found<Cause>, ShelfFault>
    requires { customer_count inst.now ≤ most_customers }
    ensures { (bytes : List ℕ)
        → AreReadUpTo most_bytes (S.state shelf.old).files (string_bytes job.now.file) bytes
        → HasFleetNetwork job.now.limit bytes inst.now
        → Finds (task_of (job_value (Check job.now)))
        (S.state shelf.old) (S.state shelf.new) result }
{
    let bytes = match read_file(alloc, job.plan.as_str(), MOST_BYTES, shelf) {
        Ok(bytes) => bytes,
        Err(fault) => return Err(fault),
    };
    match plan_of(alloc, bytes.as_slice()) {
        Ok(plan) => check_plan(alloc, inst, plan.as_ref(), job, shelf),
        Err(Ended::Refused(refusal)) => refuse_job(alloc, refusal),
        Err(Ended::Memory) => Err(ShelfFault::Memory),
    }
}

/// What `check` finds on the instance and the plan of their files: the certificate is read, and
/// both are judged.
fn check_plan<S: Shelf>(
    alloc: Global,
    inst: &Instance,
    plan: Option<&FleetPlan>,
    job: &CheckWords,
    shelf: &mut S,
) -> Result<Found<Cause>, ShelfFault>
    requires { customer_count inst.now ≤ most_customers }
    ensures { (bytes plan_bytes : List ℕ)
        → AreReadUpTo most_bytes (S.state shelf.old).files (string_bytes job.now.file) bytes
        → AreReadUpTo most_bytes (S.state shelf.old).files (string_bytes job.now.plan) plan_bytes
        → HasFleet job.now.limit bytes plan_bytes inst.now (option_map (λ p. p.now) plan.entry)
        → Finds (task_of (job_value (Check job.now)))
        (S.state shelf.old) (S.state shelf.new) result }
{
    let bytes = match read_file(alloc, job.cert.as_str(), MOST_CERTIFICATE_BYTES, shelf) {
        Ok(bytes) => bytes,
        Err(fault) => return Err(fault),
    };
    match judge_text(alloc, inst, plan, bytes.as_slice()) {
        Ok(answer) => Ok(Found::alone(alloc, answer)),
        Err(AllocError) => Err(ShelfFault::Memory),
    }
}
