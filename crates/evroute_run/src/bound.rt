//! What `bound` finds: what no fleet plan on an instance costs less than, by near routes, with a
//! proof that is written.

ghost use Rattle.std.specs.Prelude.{◌≡◌, ◌≤◌, IfOk, map, string_bytes};
ghost use Rattle.bound_certificate.specs.Ranges.{customer_count};
ghost use Rattle.command_line.specs.JobValue.{job_value};
ghost use Rattle.command_line.specs.declared.Job.TheVariants.{Bound};
ghost use Rattle.evroute_run.specs.BoundAnswer.{IsBoundFound, IsReadBack, bound_status};
ghost use Rattle.evroute_run.specs.Run.{task_of};
ghost use Rattle.job_frame.specs.Finds.{Finds, written_by};
ghost use Rattle.evroute_causes.specs.Heard.{HearsSearch, cause_beside};
ghost use Rattle.instance_reader.specs.Instance.{most_customers};
ghost use Rattle.near_proof.specs.Ranges.{NearFits};
ghost use Rattle.near_text.specs.NearIn.{IsKept};
ghost use Rattle.near_text.specs.NearTexts.{near_text};
ghost use Rattle.near_text.specs.VerdictText.{near_bound_text};
ghost use Rattle.near_text.specs.Written.{written_near};

use crate::watcher::JobWatcher;
use command_line::BoundWords;
use ev_outside::{Shelf, ShelfFault};
use evroute_causes::Cause;
use fleet_steps::fleet_instance;
use instance_reader::Instance;
use job_frame::{Answer, Ended, Found, MOST_BYTES, NewFile, Status, read_file, refuse_job};
use near_text::written_near_proofs_are_read;
use ng_pricing::{NearProof, near_bound_watched, push_near, push_near_bound};
use std::alloc::{AllocError, Global};

/// What `bound` finds: the instance is read, its fleet plans are bounded, and the proof of it is
/// written.
pub fn bound<S: Shelf, W: JobWatcher>(
    alloc: Global,
    job: &BoundWords,
    shelf: &mut S,
    watcher: &mut W,
) -> Result<Found<Cause>, ShelfFault>
    ensures { Finds (task_of (job_value (Bound job.now)))
        (S.state shelf.old) (S.state shelf.new) result }
{
    let bytes = match read_file(alloc, job.file.as_str(), MOST_BYTES, shelf) {
        Ok(bytes) => bytes,
        Err(fault) => return Err(fault),
    };
    match fleet_instance(alloc, bytes.as_slice(), job.limit) {
        Ok(inst) => match bound_on(alloc, &inst, job, watcher) {
            Ok(found) => Ok(found),
            Err(AllocError) => Err(ShelfFault::Memory),
        },
        Err(Ended::Refused(refusal)) => refuse_job(alloc, refusal),
        Err(Ended::Memory) => Err(ShelfFault::Memory),
    }
}

/// What `bound` finds on the instance of its file: a bound with the text of its proof.
fn bound_on<W: JobWatcher>(
    alloc: Global,
    inst: &Instance,
    job: &BoundWords,
    watcher: &mut W,
) -> Result<Found<Cause>, AllocError>
    requires { customer_count inst.now ≤ most_customers }
    ensures found { IfOk result (λ f.
        IsBoundFound inst.now job.now.near (string_bytes job.now.cert)
        f.answer.status (map written_by f.files.items) f.answer.text.items) }
    ensures heard { IfOk result
        (λ f. HearsSearch f.answer.status f.answer.text.items f.answer.cause) }
{
    watcher.begin(inst.denominator());
    let proof = near_bound_watched(alloc, inst, job.near as usize, watcher)?;
    know_read_back(inst, &proof);
    let answer = tell(alloc, inst, proof.bound)?;
    let file = proof_file(alloc, inst, job.cert.as_str(), &proof)?;
    Found::with_file(alloc, answer, file)
}

/// The text of a proof is read as this proof, where it isn't too long.
fn know_read_back(inst: &Instance, proof: &NearProof)
    requires few { customer_count inst.now ≤ most_customers }
    requires fits { NearFits inst.now proof.now }
    requires kept { IsKept proof.now }
    ensures { IsReadBack inst.now proof.now }
{
    // That the instance's network is one is told by its calls.
    let _nodes = inst.nodes();
    written_near_proofs_are_read();
}

/// The line of a bound, or that there is no fleet plan.
fn tell(alloc: Global, inst: &Instance, bound: Option<u128>) -> Result<Answer<Cause>, AllocError>
    ensures status { IfOk result (λ a. a.status ≡ bound_status bound) }
    ensures text { IfOk result
        (λ a. a.text.items ≡ near_bound_text inst.now.denominator bound) }
    ensures cause { IfOk result (λ a. a.cause ≡ cause_beside bound) }
{
    let mut text = Vec::new(alloc);
    push_near_bound(alloc, &mut text, inst, bound)?;
    Ok(Answer {
        status: bound_status(bound),
        text,
        cause: Cause::beside(bound),
    })
}

/// The status beside a bound.
fn bound_status(bound: Option<u128>) -> Status
    ensures { result ≡ bound_status bound }
{
    match bound {
        Some(_) => Status::Done,
        None => Status::Negative,
    }
}

/// The file that holds a proof.
fn proof_file(
    alloc: Global,
    inst: &Instance,
    cert: &str,
    proof: &NearProof,
) -> Result<NewFile, AllocError>
    requires { customer_count inst.now ≤ most_customers }
    ensures { IfOk result (λ f. written_by f ≡ record {
      name = cert.now;
      bytes = near_text (written_near inst.now proof.now);
    }) }
{
    let mut bytes = Vec::new(alloc);
    push_near(alloc, &mut bytes, inst, proof)?;
    NewFile::new(alloc, cert, bytes)
}
