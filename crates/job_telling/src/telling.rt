//! What is told of a program.

ghost use Rattle.std.specs.Prelude.{◌≡◌, IfOk};
ghost use Rattle.ev_outside.specs.Shelf.{ShelfState};
ghost use Rattle.job_frame.specs.Finds.{Finds};
ghost use Rattle.job_telling.specs.ToldTask.{tell_task, told_text, version_text};

use crate::words::Told;
use ev_outside::ShelfFault;
use job_frame::{Answer, Found, JobCause, Status};
use std::alloc::{AllocError, Global};

/// What `--help` and `--version` of a program of this name find: its usage text, or its version. No
/// file is read or written.
pub fn tell<C: JobCause>(
    alloc: Global,
    told: Told,
    program: &str,
    usage: &str,
) -> Result<Found<C>, ShelfFault>
    ensures { (shelf : ShelfState)
        → Finds (tell_task program.now usage.now told) shelf shelf result }
{
    match told_text(alloc, told, program, usage) {
        Ok(text) => Ok(Found::alone(
            alloc,
            Answer {
                status: Status::Done,
                text,
                cause: None,
            },
        )),
        Err(AllocError) => Err(ShelfFault::Memory),
    }
}

/// The text that is told.
fn told_text(alloc: Global, told: Told, program: &str, usage: &str) -> Result<Vec<u8>, AllocError>
    ensures { IfOk result (λ text. text.items ≡ told_text program.now usage.now told) }
{
    match told {
        Told::Help => {
            let mut text = Vec::new(alloc);
            text.extend_from_slice(usage.as_bytes())?;
            Ok(text)
        }
        Told::Version => version_text(alloc, program),
    }
}

/// The line of the version.
fn version_text(alloc: Global, program: &str) -> Result<Vec<u8>, AllocError>
    ensures { IfOk result (λ text. text.items ≡ version_text program.now) }
{
    let mut text = Vec::new(alloc);
    text.extend_from_slice(program.as_bytes())?;
    text.extend_from_slice(b" 0.1.0\n")?;
    Ok(text)
}
