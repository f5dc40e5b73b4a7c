//! What a job finds before anything is written.

ghost use Rattle.std.specs.Prelude.{◌≡◌, IfSome, Some};

use crate::cause::{CauseListener, JobCause};
use crate::status::Status;
use std::alloc::{AllocError, Global};

/// What is put, and the status that goes with it.
#[derive(Drop)]
pub struct Answer<C: JobCause> {
    pub status: Status,
    pub text: Vec<u8>,
    /// What the first line tells, where it isn't what was asked for.
    pub cause: Option<C>,
}

impl<C: JobCause> Answer<C> {
    /// A listener hears the cause, where there is one.
    pub fn tell<L: CauseListener<C>>(&self, listener: &mut L)
        ensures { IfSome self.now.cause (λ cause. L.heard listener.new ≡ Some cause) }
    {
        if let Some(cause) = self.cause {
            listener.hear(cause);
        }
    }
}

/// A file that is written: its name, and all that it holds then.
#[derive(Drop)]
pub struct NewFile {
    pub name: String,
    pub bytes: Vec<u8>,
}

/// What a job finds: its answer, and the files that are written, in order, before it is put.
#[derive(Drop)]
pub struct Found<C: JobCause> {
    pub answer: Answer<C>,
    pub files: Vec<NewFile>,
}

impl NewFile {
    ghost use Rattle.std.specs.Prelude.{◌≡◌, IfOk};
    ghost use Rattle.job_frame.specs.Finds.{written_by};

    /// A file with this name that will hold these bytes.
    pub fn new(alloc: Global, name: &str, bytes: Vec<u8>) -> Result<NewFile, AllocError>
        ensures { IfOk result (λ f. written_by f
            ≡ record { name = name.now; bytes = bytes.items }) }
    {
        let name = String::from_str(alloc, name)?;
        Ok(NewFile { name, bytes })
    }
}

impl<C: JobCause> Found<C> {
    ghost use Rattle.std.specs.Prelude.{◌≡◌, ◌∷◌, [], IfOk, map};
    ghost use Rattle.job_frame.specs.Finds.{written_by};
    ghost use Rattle.job_frame.specs.declared.found.Found.{Found};

    /// An answer for which no file is written.
    pub fn alone(alloc: Global, answer: Answer<C>) -> Found<C>
        ensures answer { result.answer ≡ answer }
        ensures files { result.files.items ≡ [] }
    {
        Found {
            answer,
            files: Vec::new(alloc),
        }
    }

    /// An answer before which one file is written.
    pub fn with_file(
        alloc: Global,
        answer: Answer<C>,
        file: NewFile,
    ) -> Result<Found<C>, AllocError>
        ensures answer { IfOk result (λ f. f.answer ≡ answer) }
        ensures files { IfOk result (λ f. map written_by f.files.items ≡ written_by file ∷ []) }
    {
        let mut files = Vec::new(alloc);
        files.push(file)?;
        Ok(Found { answer, files })
    }

    /// An answer before which two files are written, in this order.
    pub fn with_files(
        alloc: Global,
        answer: Answer<C>,
        first: NewFile,
        second: NewFile,
    ) -> Result<Found<C>, AllocError>
        ensures answer { IfOk result (λ f. f.answer ≡ answer) }
        ensures files { IfOk result (λ f.
            map written_by f.files.items ≡ written_by first ∷ written_by second ∷ []) }
    {
        let mut files = Vec::new(alloc);
        files.push(first)?;
        files.push(second)?;
        Ok(Found { answer, files })
    }
}
