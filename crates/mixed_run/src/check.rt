//! What `check-mixed` finds: a plan file and a proof are judged for kinds of vehicles.

ghost use Rattle.std.specs.Prelude.{◌≡◌, ◌≤◌, IfErr, IfOk, List, Option, length, option_map, ℕ};
ghost use Rattle.certificate_parts.specs.Ranges.{customer_count};
ghost use Rattle.job_frame.specs.Finds.{Finds};
ghost use Rattle.job_frame.specs.Task.{AreRead, AreReadUpTo};
ghost use Rattle.job_frame.specs.Caps.{most_bytes};
ghost use Rattle.instance_reader.specs.Instance.{most_customers};
ghost use Rattle.job_frame.specs.Ended.{IsRuleOrMemory};
ghost use Rattle.mixed_model.specs.Kinds.{AreKinds, first_of, most_kinds};
ghost use Rattle.mixed_model.specs.MixedTexts.{SpellsMixedPlan};
ghost use Rattle.mixed_run.specs.CheckMixedAnswer.{HasPlan, check_mixed_task};
ghost use Rattle.command_line.specs.JobValue.{IsMixedJob, mixed_value};
ghost use Rattle.mixed_run.specs.Judged.{AreKnown, IsPlanEnded};
ghost use Rattle.mixed_run.specs.KindFiles.{HasKinds, kind_reads};

use crate::judging::judge_text;
use crate::kinds::kinds_of_files;
use crate::refusal::{Halt, refuse_mixed_job};
use command_line::MixedWords;
use ev_outside::{Shelf, ShelfFault};
use evroute_causes::Cause;
use instance_reader::Instance;
use job_frame::{Ended, Found, MOST_BYTES, MOST_CERTIFICATE_BYTES, read_file, refuse_job};
use mixed_model::{MixedRoute, PlanText, read_mixed_plan};
use plan_writer::Refusal;
use std::alloc::{AllocError, Global};

/// What `check-mixed` finds: the instances of the kinds are read, then the plan, then the proof;
/// and then they are judged.
pub fn check_mixed_files<S: Shelf>(
    alloc: Global,
    job: &MixedWords,
    shelf: &mut S,
) -> Result<Found<Cause>, ShelfFault>
    requires { IsMixedJob job.now }
    ensures { Finds (check_mixed_task (mixed_value job.now))
        (S.state shelf.old) (S.state shelf.new) result }
{
    match kinds_of_files(alloc, job.files.as_slice(), job.limit, shelf) {
        Ok(kinds) => check_on(alloc, kinds.as_slice(), job, shelf),
        Err(Halt::Refused(refusal)) => refuse_mixed_job(alloc, refusal),
        Err(Halt::Stopped(fault)) => Err(fault),
    }
}

/// What `check-mixed` finds on the kinds of vehicles of its files: the plan is read, and then the
/// proof.
fn check_on<S: Shelf>(
    alloc: Global,
    kinds: &[Instance],
    job: &MixedWords,
    shelf: &mut S,
) -> Result<Found<Cause>, ShelfFault>
    requires kinds { AreKinds kinds.now }
    requires few { customer_count (first_of kinds.now) ≤ most_customers }
    ensures { (files : List (List ℕ))
        → AreRead (S.state shelf.old).files (kind_reads (mixed_value job.now).files) files
        → HasKinds job.now.limit files kinds.now
        → Finds (check_mixed_task (mixed_value job.now))
        (S.state shelf.old) (S.state shelf.new) result }
{
    let bytes = match read_file(alloc, job.plan.as_str(), MOST_BYTES, shelf) {
        Ok(bytes) => bytes,
        Err(fault) => return Err(fault),
    };
    match plan_of(alloc, kinds.len(), bytes.as_slice()) {
        Ok(plan) => check_plan(alloc, kinds, routes_of(&plan), job, shelf),
        Err(Ended::Refused(refusal)) => refuse_job(alloc, refusal),
        Err(Ended::Memory) => Err(ShelfFault::Memory),
    }
}

/// What `check-mixed` finds on the kinds and the plan of their files: the proof is read, and both
/// are judged.
fn check_plan<S: Shelf>(
    alloc: Global,
    kinds: &[Instance],
    plan: Option<&[MixedRoute]>,
    job: &MixedWords,
    shelf: &mut S,
) -> Result<Found<Cause>, ShelfFault>
    requires kinds { AreKinds kinds.now }
    requires few { customer_count (first_of kinds.now) ≤ most_customers }
    requires known { AreKnown kinds.now (option_map (λ p. p.now) plan) }
    ensures { (files : List (List ℕ)) (plan_bytes : List ℕ)
        → AreRead (S.state shelf.old).files (kind_reads (mixed_value job.now).files) files
        → AreReadUpTo most_bytes (S.state shelf.old).files (mixed_value job.now).plan plan_bytes
        → HasPlan job.now.limit files plan_bytes kinds.now (option_map (λ p. p.now) plan.entry)
        → Finds (check_mixed_task (mixed_value job.now))
        (S.state shelf.old) (S.state shelf.new) result }
{
    let bytes = match read_file(alloc, job.cert.as_str(), MOST_CERTIFICATE_BYTES, shelf) {
        Ok(bytes) => bytes,
        Err(fault) => return Err(fault),
    };
    match judge_text(alloc, kinds, plan, bytes.as_slice()) {
        Ok(answer) => Ok(Found::alone(alloc, answer)),
        Err(AllocError) => Err(ShelfFault::Memory),
    }
}

/// The plan of a plan file, for so many kinds, or none where it says so.
fn plan_of(alloc: Global, kinds: usize, bytes: &[u8]) -> Result<Option<Vec<MixedRoute>>, Ended>
    requires some { 1 ≤ kinds }
    requires few { kinds ≤ most_kinds }
    ensures ok { IfOk result
        (λ plan. SpellsMixedPlan kinds bytes.now (option_map (λ v. v.items) plan)) }
    ensures rule { IfErr result IsRuleOrMemory }
    ensures ended { IfErr result (IsPlanEnded kinds bytes.now) }
{
    match read_mixed_plan(alloc, kinds, bytes) {
        Ok(plan) => Ok(plan),
        Err(PlanText::Memory) => Err(Ended::Memory),
        Err(fault) => Err(Ended::Refused(Refusal::Plan(fault))),
    }
}

/// The routes of a plan, where there is one.
fn routes_of(plan: &Option<Vec<MixedRoute>>) -> Option<&[MixedRoute]>
    ensures { option_map (λ p. p.now) result ≡ option_map (λ v. v.items) plan.now }
{
    match plan {
        Some(routes) => Some(routes.as_slice()),
        None => None,
    }
}
