//! What `convert` finds: what the decimals of a file become, which is written into another.

ghost use Rattle.std.specs.Prelude.{◌≡◌, ◌∷◌, [], IfOk, map};
ghost use Rattle.command_line.specs.JobValue.{job_value};
ghost use Rattle.command_line.specs.declared.Job.TheVariants.{Convert};
ghost use Rattle.evroute_run.specs.Run.{task_of};
ghost use Rattle.job_frame.specs.Finds.{Finds, written_by};
ghost use Rattle.evroute_causes.specs.Heard.{HearsRefusals};

use command_line::ConvertWords;
use decimal_import::ImportFault;
use ev_outside::{Shelf, ShelfFault};
use evroute_causes::Cause;
use job_frame::{Answer, Found, MOST_BYTES, NewFile, Status, read_file, refuse_job};
use plan_writer::Refusal;
use std::alloc::{AllocError, Global};

/// What `convert` finds: the file is read and converted.
pub fn convert<S: Shelf>(
    alloc: Global,
    job: &ConvertWords,
    shelf: &mut S,
) -> Result<Found<Cause>, ShelfFault>
    ensures { Finds (task_of (job_value (Convert job.now)))
        (S.state shelf.old) (S.state shelf.new) result }
{
    let bytes = match read_file(alloc, job.file.as_str(), MOST_BYTES, shelf) {
        Ok(bytes) => bytes,
        Err(fault) => return Err(fault),
    };
    let whole = decimal_import::convert(
        alloc,
        bytes.as_slice(),
        job.time_digits,
        job.energy_digits,
    );
    match whole {
        Ok(whole) => match write_whole(alloc, job.outfile.as_str(), whole) {
            Ok(found) => Ok(found),
            Err(AllocError) => Err(ShelfFault::Memory),
        },
        Err(ImportFault::Memory) => Err(ShelfFault::Memory),
        Err(fault) => refuse_job(alloc, Refusal::Literal(fault)),
    }
}

/// What is found where a file became this text: it is written, and nothing is put.
fn write_whole(alloc: Global, outfile: &str, whole: Vec<u8>) -> Result<Found<Cause>, AllocError>
    ensures status { IfOk result (λ f. f.answer.status ≡ Status.Done) }
    ensures text { IfOk result (λ f. f.answer.text.items ≡ []) }
    ensures files { IfOk result (λ f. map written_by f.files.items
        ≡ record { name = outfile.now; bytes = whole.items } ∷ []) }
    ensures heard { IfOk result
        (λ f. HearsRefusals f.answer.status f.answer.text.items f.answer.cause) }
{
    let answer = Answer {
        status: Status::Done,
        text: Vec::new(alloc),
        cause: None,
    };
    let file = NewFile::new(alloc, outfile, whole)?;
    Found::with_file(alloc, answer, file)
}
