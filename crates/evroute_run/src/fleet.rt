//! What `fleet` finds: a fleet is planned on an instance, and its plan and a certificate are
//! written.

ghost use Rattle.std.specs.Prelude.{◌≡◌, ◌∷◌, ◌≤◌, [], IfOk, IfSome, List, map, string_bytes, ℕ};
ghost use Rattle.bound_certificate.specs.Ranges.{customer_count};
ghost use Rattle.command_line.specs.JobValue.{IsFleetJob, job_value};
ghost use Rattle.command_line.specs.declared.Job.TheVariants.{Fleet};
ghost use Rattle.evroute_run.specs.FleetAnswer.{IsFound};
ghost use Rattle.evroute_run.specs.Run.{task_of};
ghost use Rattle.job_frame.specs.Finds.{Finds, written_by};
ghost use Rattle.evroute_causes.specs.Heard.{HearsSearch};
ghost use Rattle.instance_reader.specs.Instance.{most_customers};

use crate::planning::plan_all;
use crate::watcher::JobWatcher;
use command_line::FleetWords;
use ev_outside::{Shelf, ShelfFault};
use evroute_causes::Cause;
use fleet_steps::fleet_instance;
use instance_reader::Instance;
use job_frame::{Ended, Found, MOST_BYTES, read_file, refuse_job};
use std::alloc::{AllocError, Global};

/// What `fleet` finds: the instance is read, a fleet is planned on it, and its plan and a
/// certificate are written.
pub fn fleet<S: Shelf, W: JobWatcher>(
    alloc: Global,
    job: &FleetWords,
    shelf: &mut S,
    watcher: &mut W,
) -> Result<Found<Cause>, ShelfFault>
    requires { IsFleetJob job.now }
    ensures { Finds (task_of (job_value (Fleet job.now)))
        (S.state shelf.old) (S.state shelf.new) result }
{
    let bytes = match read_file(alloc, job.file.as_str(), MOST_BYTES, shelf) {
        Ok(bytes) => bytes,
        Err(fault) => return Err(fault),
    };
    match fleet_instance(alloc, bytes.as_slice(), job.limit) {
        Ok(inst) => match plan_on(alloc, &inst, job, watcher) {
            Ok(found) => Ok(found),
            Err(AllocError) => Err(ShelfFault::Memory),
        },
        Err(Ended::Refused(refusal)) => refuse_job(alloc, refusal),
        Err(Ended::Memory) => Err(ShelfFault::Memory),
    }
}

/// What `fleet` finds on the instance of its file: the texts of a plan and of a certificate, and
/// the report on both.
fn plan_on<W: JobWatcher>(
    alloc: Global,
    inst: &Instance,
    job: &FleetWords,
    watcher: &mut W,
) -> Result<Found<Cause>, AllocError>
    requires few { customer_count inst.now ≤ most_customers }
    requires nodes { IfSome job.now.nodes (λ most. 1 ≤ most) }
    ensures found { IfOk result (λ f. (plan_bytes cert_bytes : List ℕ)
        × IsFound inst.now job.now.nodes plan_bytes cert_bytes
        f.answer.status f.answer.text.items
        × (map written_by f.files.items
        ≡ record { name = string_bytes job.now.plan; bytes = plan_bytes }
        ∷ record { name = string_bytes job.now.cert; bytes = cert_bytes } ∷ [])) }
    ensures heard { IfOk result
        (λ f. HearsSearch f.answer.status f.answer.text.items f.answer.cause) }
{
    let planned = plan_all(alloc, inst, job.nodes, watcher)?;
    // By a name of its own its answer and its files are told apart.
    let found = planned.found(alloc, job.plan.as_str(), job.cert.as_str())?;
    Ok(found)
}
