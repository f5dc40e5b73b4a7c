//! What `prove` finds: one route of an instance is charged, and what shows that no charge is faster
//! is written.

ghost use Rattle.std.specs.Prelude.{◌≡◌, ◌≤◌, IfErr, IfOk, IfSome, List, map, ℕ};
ghost use Rattle.command_line.specs.JobValue.{job_value};
ghost use Rattle.command_line.specs.declared.Job.TheVariants.{Prove};
ghost use Rattle.command_line.specs.declared.Options.{Options};
ghost use Rattle.ev_model.specs.Feasible.{IsFeasible};
ghost use Rattle.ev_model.specs.Route.{IsRoute};
ghost use Rattle.evroute_run.specs.FixedAnswer.{IsTask, start_of};
ghost use Rattle.evroute_run.specs.ProveAnswer.{ProveAnswers, fixed_status, timed_plan};
ghost use Rattle.evroute_run.specs.Run.{task_of};
ghost use Rattle.job_frame.specs.Finds.{Finds, written_by};
ghost use Rattle.evroute_causes.specs.Heard.{HearsRefusals};
ghost use Rattle.report_lines.specs.FixedText.{fixed_text};
ghost use Rattle.route_proof.specs.ProofTexts.{proof_text};

use crate::fixed::{infeasible, report_plan};
use crate::trip::trip_of;
use command_line::{Options, ProofWords};
use ev_outside::{Shelf, ShelfFault};
use evroute_causes::Cause;
use fixed_certificate::prove_route;
use instance_reader::Instance;
use job_frame::{Answer, Ended, Found, MOST_BYTES, NewFile, read_file, refuse_job};
use route_plan::RoutePlan;
use route_proof::{RouteProof, push_proof, written_proofs_are_read};
use std::alloc::{AllocError, Global};

/// What `prove` finds: the file is read as an instance, its route is charged, and the proof is
/// written.
pub fn prove<S: Shelf>(
    alloc: Global,
    job: &ProofWords,
    shelf: &mut S,
) -> Result<Found<Cause>, ShelfFault>
    ensures { Finds (task_of (job_value (Prove job.now)))
        (S.state shelf.old) (S.state shelf.new) result }
{
    let bytes = match read_file(alloc, job.file.as_str(), MOST_BYTES, shelf) {
        Ok(bytes) => bytes,
        Err(fault) => return Err(fault),
    };
    prove_text(
        alloc,
        bytes.as_slice(),
        job.route.as_str(),
        job.options,
        job.cert.as_str(),
    )
}

/// What is found for the bytes of an instance and the word of a route.
fn prove_text(
    alloc: Global,
    bytes: &[u8],
    word: &str,
    options: Options,
    cert: &str,
) -> Result<Found<Cause>, ShelfFault>
    ensures answers { IfOk result (λ f. ProveAnswers options word.now cert.now bytes.now
        f.answer.status (map written_by f.files.items) f.answer.text.items) }
    ensures heard { IfOk result
        (λ f. HearsRefusals f.answer.status f.answer.text.items f.answer.cause) }
    ensures memory { IfErr result (λ fault. fault ≡ ShelfFault.Memory) }
{
    match trip_of(alloc, bytes, word, options) {
        Ok(trip) => match prove_trip(alloc, &trip.inst, trip.route.as_slice(), trip.start, cert) {
            Ok(found) => Ok(found),
            Err(AllocError) => Err(ShelfFault::Memory),
        },
        Err(Ended::Refused(refusal)) => refuse_job(alloc, refusal),
        Err(Ended::Memory) => Err(ShelfFault::Memory),
    }
}

/// What is found for a route and a level at the start.
fn prove_trip(
    alloc: Global,
    inst: &Instance,
    route: &[usize],
    start: u64,
    cert: &str,
) -> Result<Found<Cause>, AllocError>
    requires route { IsRoute inst.now route.now }
    requires start { start ≤ inst.now.capacity }
    ensures answers { (options : Options) (word bytes : List ℕ)
        → IsTask options word bytes inst.now route.now
        → start ≡ start_of inst.now options.charge
        → IfOk result (λ f. ProveAnswers options word cert.now bytes
        f.answer.status (map written_by f.files.items) f.answer.text.items) }
    ensures heard { IfOk result
        (λ f. HearsRefusals f.answer.status f.answer.text.items f.answer.cause) }
{
    // That the instance's network is one is told by its calls; on it rests that the proof is read.
    let _nodes = inst.nodes();
    written_proofs_are_read();
    let proof = prove_route(alloc, inst, route, start)?;
    let answer = tell(alloc, inst, start, &proof.plan)?;
    let file = proof_file(alloc, cert, &proof)?;
    Found::with_file(alloc, answer, file)
}

/// What `fixed` puts of a plan, or that there is none.
fn tell(
    alloc: Global,
    inst: &Instance,
    start: u64,
    plan: &Option<RoutePlan>,
) -> Result<Answer<Cause>, AllocError>
    requires start { start ≤ inst.now.capacity }
    requires plan { IfSome plan.now (λ p. IsFeasible inst.now 1 start p.stops) }
    ensures status { IfOk result (λ a. a.status ≡ fixed_status plan.now) }
    ensures text { IfOk result (λ a. a.text.items
        ≡ fixed_text inst.now.denominator (timed_plan inst.now start plan.now)) }
    ensures heard { IfOk result (λ a. HearsRefusals a.status a.text.items a.cause) }
{
    let told = match plan {
        Some(plan) => report_plan(alloc, inst, start, plan),
        None => infeasible(alloc, inst),
    };
    match told {
        Ok(answer) => Ok(answer),
        Err(Ended::Memory) => Err(AllocError),
        Err(Ended::Refused(_)) => unreachable!(),
    }
}

/// The file that holds a proof.
fn proof_file(alloc: Global, cert: &str, proof: &RouteProof) -> Result<NewFile, AllocError>
    ensures { IfOk result (λ f. written_by f
        ≡ record { name = cert.now; bytes = proof_text proof.now }) }
{
    let mut bytes = Vec::new(alloc);
    push_proof(alloc, &mut bytes, proof)?;
    NewFile::new(alloc, cert, bytes)
}
