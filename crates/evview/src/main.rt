//! `evview`: schedules and pictures of plans for electric delivery fleets.
#![tactic(auto)]

mod commands;
mod meaning;

use ev_outside::{FileShelf, OutSink};
use evview_run::{Cause, Evview};
pub use evview_run::{Status, run};
use job_ending::{FailingShelf, FailingSink, LastCause, run_to_end};
use job_listeners::{HeardSink, PlainDiagnostics};
use meaning::{Failed, told_behind, told_left};
use std::alloc::AllocError;
use std::process::ExitCode;
use std::{env, io};
use view_words::Job;

fn main(rt: HostRuntime) -> ExitCode {
    run_on(&rt, words_of(&rt))
}

/// The words behind the program's name.
fn words_of(rt: &HostRuntime) -> io::Result<Vec<String>> {
    let alloc = rt.alloc();
    match env::args(rt)?.skip(1).collect::<Vec<String>>(alloc) {
        Ok(words) => Ok(words),
        Err(AllocError) => Err(io::Error::from(AllocError)),
    }
}

/// The program with these words over the files and the outputs of the system: its exit status is
/// that of a run, or tells that the system gave no words. Behind it people are told on standard
/// error what its end means; nothing of that where memory is refused or standard error fails.
fn run_on(rt: &HostRuntime, words: io::Result<Vec<String>>) -> ExitCode {
    let alloc = rt.alloc();
    let mut shelf = FileShelf::new(alloc, rt);
    let mut out = HeardSink::over(OutSink::new(rt));
    let mut people = PlainDiagnostics::new(alloc, rt, "evview");
    let mut program = Evview {
        listener: LastCause::new(),
    };
    let end = run_to_end(
        alloc,
        &words,
        &mut shelf,
        &mut out,
        &mut people,
        &mut program,
    );
    let cause = program.listener.cause();
    tell_left(rt, &shelf, &out, end.job.as_ref(), cause);
    if let (true, Ok(words)) = (out.has_put(), &words) {
        tell(
            rt,
            told_behind(alloc, rt, words.as_slice(), end.job.as_ref(), cause),
        );
    }
    end.code
}

/// Tells people what stands in the files of the job once a file or the output failed; nothing where
/// standard error goes to the file that failed.
fn tell_left(
    rt: &HostRuntime,
    shelf: &FileShelf<'_, HostRuntime>,
    out: &HeardSink<OutSink<'_, HostRuntime>>,
    job: Option<&Job>,
    cause: Option<Cause>,
) {
    let alloc = rt.alloc();
    if out.last_failure().is_some() {
        tell(rt, told_left(alloc, job, cause, Failed::Output));
    } else if let Some(failure) = shelf.last_failure() {
        if failure.is_standard_error {
            return;
        }
        let files = shelf.storage();
        let failed = match (files.is_question(), files.is_changed()) {
            (true, _) => Failed::Asked,
            (false, true) => Failed::File(failure.name),
            (false, false) => Failed::Unchanged(failure.name),
        };
        tell(rt, told_left(alloc, job, cause, failed));
    }
}

/// Tells people on standard error what there is to tell.
fn tell(rt: &HostRuntime, told: Result<Option<String>, AllocError>) {
    if let Ok(Some(told)) = told {
        let _ = eprintln!(rt; "evview: {told}");
    }
}
