//! The program over any files and any output.

ghost use Rattle.std.specs.Prelude.{◌≡◌, ◌≢◌, ◌⊎◌, [], false, IfSome, IsNone};
ghost use Rattle.ev_outside.specs.Shelf.{CountsNeverFall};
ghost use Rattle.evview_run.specs.Run.{TellsUsage, job_named, task_of};
ghost use Rattle.job_frame.specs.Performs.{NothingFailed, Performs, PutsHeard, SparesFiles};
ghost use Rattle.job_frame.specs.Task.{IsAnswered};
ghost use Rattle.view_words.specs.JobValue.{IsJob, job_value};

use crate::cause::Cause;
use crate::view::view;
use ev_outside::{Shelf, Sink};
use job_ending::{LastCause, Program, finish};
use job_frame::{CauseListener, Status};
use job_telling::tell;
use std::alloc::{AllocError, Global};
use view_words::{Job, PROGRAM, job_words, usage};

/// The program: its words after its name, the files and the output.
///
/// `FILE PLAN [--limit N] [--route N] [--partial] [--fixed [--charge N]] [--exact] [--begin HH:MM
/// --unit U] [--places FILE] [--svg OUT] [--json OUT] [--csv OUT] [--map OUT]` reads FILE as an
/// instance with any number of customers, PLAN as a fleet plan, or none, or with `--fixed` as what
/// `evroute fixed` puts of a vehicle that starts with the level of `--charge`, and the FILE of
/// `--places` as the places by node; it writes the pictures of the plan's schedule into the OUT of
/// `--svg`, the schedule as JSON into that of `--json`, as CSV into that of `--csv`, and its map
/// into that of `--map`, and puts the schedule as a table a route ([`Status::Done`]). `--route`
/// leaves all routes out but one; with `--begin` and `--unit` is told by the clock when something
/// happens, with `--places` what the places are called. Where the plan breaks a rule, the first one
/// is put ([`Status::Negative`]); with `--partial` the rules are that each route can be driven and
/// no customer stands twice, with `--fixed` that it can be driven and takes the time that PLAN
/// tells.
///
/// `--help` alone puts the usage text, and `--version` alone the name and the version
/// ([`Status::Done`]).
///
/// The line of the first broken rule of the files and words is put ([`Status::Refused`]): of the
/// instance, of the limit, of the level at the start, of the text of the plan, of the file of
/// places, or that the plan has no such route. Other words put the usage text ([`Status::Words`]).
/// After [`Status::Fault`] and [`Status::Memory`] a part of such a text may have been put. No file
/// but an OUT is written, and only where no rule is broken. What it holds after a failed write
/// isn't known.
pub fn run<S: Shelf, K: Sink>(alloc: Global, words: &[String], shelf: &mut S, out: &mut K) -> Status
    ensures words { result ≡ Status.Words → IsNone (job_named words.now) }
    ensures usage { IsNone (job_named words.now)
        → TellsUsage (S.state shelf.old) (S.state shelf.new)
        (K.state out.old) (K.state out.new) result }
    ensures job { IfSome (job_named words.now) (λ job.
        Performs (task_of job) (S.state shelf.old) (S.state shelf.new)
        (K.state out.old) (K.state out.new) result) }
    ensures stays { result ≢ Status.Fault
        → NothingFailed (S.state shelf.old) (S.state shelf.new)
        (K.state out.old) (K.state out.new) }
    ensures falls { CountsNeverFall (S.state shelf.old) (S.state shelf.new) }

    // With an output that takes no memory, nothing was put where memory was refused, and none is
    // refused where there are no words. With files that are written without memory too, want of it
    // left every file as it was.
    ensures memory { K.takes_memory ≡ false → result ≡ Status.Memory
        → K.state out.new ≡ K.state out.old }
    ensures spares { IfSome (job_named words.now) (λ job.
        SparesFiles (task_of job) S.writes_take_memory K.takes_memory
        (S.state shelf.old).files (S.state shelf.new).files result) }
    ensures no_words { K.takes_memory ≡ false → words.now ≡ []
        → (result ≡ Status.Words) ⊎ (result ≡ Status.Fault) }
{
    job_ending::run(
        alloc,
        words,
        shelf,
        out,
        &mut Evview {
            listener: LastCause::new(),
        },
    )
}

/// The program beside who hears why an answer isn't the one that was asked for.
#[derive(Drop)]
pub struct Evview<L: CauseListener<Cause> + Drop> {
    pub listener: L,
}

impl<L: CauseListener<Cause> + Drop> Program for Evview<L> {
    ghost use Rattle.evview_run.specs.Run.{job_named, task_of};
    ghost use Rattle.view_words.specs.JobValue.{IsJob, job_value};
    ghost use Rattle.view_words.specs.Usage.{usage_text};
    ghost use Rattle.view_words.specs.Words as words;

    type Job = Job;

    type Cause = Cause;

    ghost Named = { words.Job };

    ghost usage_text = { usage_text };

    ghost job_named = { job_named };

    ghost value_of = { job_value };

    ghost IsJob = { IsJob };

    ghost task_of = { task_of };

    ghost heard = { λ program. L.heard program.listener };

    fn usage(&self) -> &'static str {
        usage()
    }

    fn job_of(&self, alloc: Global, words: &[String]) -> Result<Option<Job>, AllocError> {
        job_words(alloc, words)
    }

    fn hear(&mut self, cause: Cause) {
        self.listener.hear(cause);
    }

    fn perform<S: Shelf, K: Sink>(
        &mut self,
        alloc: Global,
        job: &Job,
        shelf: &mut S,
        out: &mut K,
    ) -> Status {
        perform(alloc, job, shelf, out, &mut self.listener)
    }
}

/// A job. What it finds is written and put.
fn perform<S: Shelf, K: Sink, L: CauseListener<Cause>>(
    alloc: Global,
    job: &Job,
    shelf: &mut S,
    out: &mut K,
    listener: &mut L,
) -> Status
    requires { IsJob job.now }
    ensures words { result ≢ Status.Words }
    ensures job { Performs (task_of (job_value job.now)) (S.state shelf.old) (S.state shelf.new)
        (K.state out.old) (K.state out.new) result }
    ensures heard { IsAnswered result
        → PutsHeard (task_of (job_value job.now)) (S.state shelf.old).files
        (S.state shelf.new).files (K.state out.old).written (K.state out.new).written
        result (L.heard listener.new) }
    ensures stays { result ≢ Status.Fault
        → NothingFailed (S.state shelf.old) (S.state shelf.new)
        (K.state out.old) (K.state out.new) }
    ensures falls { CountsNeverFall (S.state shelf.old) (S.state shelf.new) }
    ensures memory { K.takes_memory ≡ false → result ≡ Status.Memory
        → K.state out.new ≡ K.state out.old }
    ensures spares { SparesFiles (task_of (job_value job.now)) S.writes_take_memory K.takes_memory
        (S.state shelf.old).files (S.state shelf.new).files result }
{
    match job {
        Job::View(job) => finish(view(alloc, job, shelf), shelf, out, listener),
        Job::Tell(told) => finish(tell(alloc, *told, PROGRAM, usage()), shelf, out, listener),
    }
}
