//! What `mixed` finds: a fleet of several kinds of vehicles is planned, and its plan and a proof
//! are written.

ghost use Rattle.std.specs.Prelude.{◌≡◌, ◌∷◌, ◌≤◌, [], IfOk, List, map, ℕ};
ghost use Rattle.std.specs.List.{All};
ghost use Rattle.certificate_parts.specs.Ranges.{customer_count};
ghost use Rattle.ev_model.specs.Network.{IsNetwork};
ghost use Rattle.job_frame.specs.Finds.{Finds, written_by};
ghost use Rattle.instance_reader.specs.Instance.{most_customers};
ghost use Rattle.mixed_model.specs.Kinds.{AreKinds, first_of};
ghost use Rattle.command_line.specs.JobValue.{IsMixedJob, mixed_value};
ghost use Rattle.mixed_run.specs.MixedAnswer.{IsMixedFound, mixed_heard, mixed_task};

use crate::kinds::kinds_of_files;
use crate::planning::plan_all;
use crate::refusal::{Halt, refuse_mixed_job};
use command_line::MixedWords;
use ev_outside::{Shelf, ShelfFault};
use evroute_causes::Cause;
use instance_reader::Instance;
use job_frame::{Found, ScaleWatcher};
use mixed_fleet::RoundWatcher;
use std::alloc::{AllocError, Global};

/// What `mixed` finds: the instances of the kinds are read, a fleet of them is planned, and its
/// plan and a proof of a bound on its cost are written.
pub fn mixed<S: Shelf, W: RoundWatcher + ScaleWatcher>(
    alloc: Global,
    job: &MixedWords,
    shelf: &mut S,
    watcher: &mut W,
) -> Result<Found<Cause>, ShelfFault>
    requires { IsMixedJob job.now }
    ensures { Finds (mixed_task (mixed_value job.now))
        (S.state shelf.old) (S.state shelf.new) result }
{
    match kinds_of_files(alloc, job.files.as_slice(), job.limit, shelf) {
        Ok(kinds) => match plan_on(alloc, kinds.as_slice(), job, watcher) {
            Ok(found) => Ok(found),
            Err(AllocError) => Err(ShelfFault::Memory),
        },
        Err(Halt::Refused(refusal)) => refuse_mixed_job(alloc, refusal),
        Err(Halt::Stopped(fault)) => Err(fault),
    }
}

/// What `mixed` finds for the kinds of vehicles of its files: the texts of a plan and of a proof,
/// and the report on both.
fn plan_on<W: RoundWatcher + ScaleWatcher>(
    alloc: Global,
    kinds: &[Instance],
    job: &MixedWords,
    watcher: &mut W,
) -> Result<Found<Cause>, AllocError>
    requires networks { All IsNetwork kinds.now }
    requires kinds { AreKinds kinds.now }
    requires few { customer_count (first_of kinds.now) ≤ most_customers }
    ensures found { IfOk result (λ f. (plan_bytes cert_bytes : List ℕ)
        × IsMixedFound kinds.now plan_bytes cert_bytes f.answer.status f.answer.text.items
        × (map written_by f.files.items
        ≡ record { name = (mixed_value job.now).plan; bytes = plan_bytes }
        ∷ record { name = (mixed_value job.now).cert; bytes = cert_bytes } ∷ [])) }
    ensures heard { IfOk result
        (λ f. mixed_heard f.answer.status f.answer.text.items f.answer.cause) }
{
    let planned = plan_all(alloc, kinds, watcher)?;
    planned.found(alloc, job.plan.as_str(), job.cert.as_str())
}
