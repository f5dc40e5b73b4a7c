//! What `check-bound` finds: a proof of what no fleet plan costs less than is judged.

ghost use Rattle.std.specs.Prelude.{◌≡◌, ◌≤◌, IfOk, List, Option, string_bytes, ℕ};
ghost use Rattle.bound_certificate.specs.Ranges.{customer_count};
ghost use Rattle.command_line.specs.JobValue.{job_value};
ghost use Rattle.command_line.specs.declared.Job.TheVariants.{CheckBound};
ghost use Rattle.job_frame.specs.Caps.{most_bytes};
ghost use Rattle.instance_reader.specs.Instance.{most_customers};
ghost use Rattle.evroute_run.specs.CheckBoundAnswer.{CheckBoundAnswers, check_bound_heard, verdict_cause, verdict_status};
ghost use Rattle.near_steps.specs.NearFile.{HasNear};
ghost use Rattle.fleet_steps.specs.FleetNetwork.{HasFleetNetwork};
ghost use Rattle.evroute_run.specs.Run.{task_of};
ghost use Rattle.job_frame.specs.Finds.{Finds};
ghost use Rattle.job_frame.specs.Task.{AreReadUpTo, IsAnswered};
ghost use Rattle.near_proof.specs.Ranges.{NearFits};

use command_line::BoundCheckWords;
use ev_outside::{Shelf, ShelfFault};
use evroute_causes::Cause;
use fleet_steps::fleet_instance;
use instance_reader::Instance;
use job_frame::{
    Answer, Ended, Found, MOST_BYTES, MOST_CERTIFICATE_BYTES, Status, read_file, refuse, refuse_job,
};
use near_steps::proof_of;
use ng_pricing::{NearProof, NearVerdict, check_near, push_near_verdict};
use std::alloc::{AllocError, Global};

/// What `check-bound` finds: the instance is read, then the proof; and then this is judged.
pub fn check_bound<S: Shelf>(
    alloc: Global,
    job: &BoundCheckWords,
    shelf: &mut S,
) -> Result<Found<Cause>, ShelfFault>
    ensures { Finds (task_of (job_value (CheckBound job.now)))
        (S.state shelf.old) (S.state shelf.new) result }
{
    let bytes = match read_file(alloc, job.file.as_str(), MOST_BYTES, shelf) {
        Ok(bytes) => bytes,
        Err(fault) => return Err(fault),
    };
    match fleet_instance(alloc, bytes.as_slice(), job.limit) {
        Ok(inst) => check_on(alloc, &inst, job, shelf),
        Err(Ended::Refused(refusal)) => refuse_job(alloc, refusal),
        Err(Ended::Memory) => Err(ShelfFault::Memory),
    }
}

/// What `check-bound` finds on the instance of its file: the proof is read, and judged.
fn check_on<S: Shelf>(
    alloc: Global,
    inst: &Instance,
    job: &BoundCheckWords,
    shelf: &mut S,
) -> Result<Found<Cause>, ShelfFault>
    requires { customer_count inst.now ≤ most_customers }
    ensures { (bytes : List ℕ)
        → AreReadUpTo most_bytes (S.state shelf.old).files (string_bytes job.now.file) bytes
        → HasFleetNetwork job.now.limit bytes inst.now
        → Finds (task_of (job_value (CheckBound job.now)))
        (S.state shelf.old) (S.state shelf.new) result }
{
    let bytes = match read_file(alloc, job.cert.as_str(), MOST_CERTIFICATE_BYTES, shelf) {
        Ok(bytes) => bytes,
        Err(fault) => return Err(fault),
    };
    match judge_text(alloc, inst, bytes.as_slice()) {
        Ok(answer) => Ok(Found::alone(alloc, answer)),
        Err(AllocError) => Err(ShelfFault::Memory),
    }
}

/// The answer to the bytes of a proof: they are read, and judged.
fn judge_text(alloc: Global, inst: &Instance, bytes: &[u8]) -> Result<Answer<Cause>, AllocError>
    requires { customer_count inst.now ≤ most_customers }
    ensures answered { IfOk result (λ a. IsAnswered a.status) }
    ensures answers { (limit : Option ℕ) (file : List ℕ) → HasFleetNetwork limit file inst.now
        → IfOk result (λ a. CheckBoundAnswers limit file bytes.now a.status a.text.items) }
    ensures heard { IfOk result (λ a. check_bound_heard a.status a.text.items a.cause) }
{
    match proof_of(alloc, inst, bytes) {
        Ok(proof) => judge(alloc, inst, &proof),
        Err(Ended::Refused(refusal)) => refuse(alloc, refusal),
        Err(Ended::Memory) => Err(AllocError),
    }
}

/// The answer to a proof: it is accepted, with its bound, or breaks a rule.
fn judge(alloc: Global, inst: &Instance, proof: &NearProof) -> Result<Answer<Cause>, AllocError>
    requires few { customer_count inst.now ≤ most_customers }
    requires fits { NearFits inst.now proof.now }
    ensures answered { IfOk result (λ a. IsAnswered a.status) }
    ensures answers { (limit : Option ℕ) (file bytes : List ℕ)
        → HasFleetNetwork limit file inst.now → HasNear inst.now bytes proof.now
        → IfOk result (λ a. CheckBoundAnswers limit file bytes a.status a.text.items) }
    ensures heard { IfOk result (λ a. check_bound_heard a.status a.text.items a.cause) }
{
    let verdict = check_near(alloc, inst, proof)?;
    let mut text = Vec::new(alloc);
    push_near_verdict(alloc, &mut text, inst, proof, &verdict)?;
    Ok(Answer {
        status: verdict_status(verdict),
        text,
        cause: cause_of(verdict),
    })
}

/// The rule that a proof breaks, where it breaks one.
fn cause_of(verdict: NearVerdict) -> Option<Cause>
    ensures { result ≡ verdict_cause verdict }
{
    match verdict {
        NearVerdict::Accepted => None,
        _ => Some(Cause::Near(verdict)),
    }
}

/// The status of a verdict.
fn verdict_status(verdict: NearVerdict) -> Status
    ensures { result ≡ verdict_status verdict }
{
    match verdict {
        NearVerdict::Accepted => Status::Done,
        _ => Status::Negative,
    }
}
