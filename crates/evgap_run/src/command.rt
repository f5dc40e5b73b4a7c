//! The program over any files and any output.

ghost use Rattle.std.specs.Prelude.{◌≡◌, ◌≢◌, ◌⊎◌, [], false, IfSome, IsNone};
ghost use Rattle.ev_outside.specs.Shelf.{CountsNeverFall};
ghost use Rattle.evgap_run.specs.Run.{TellsUsage, job_named, task_of};
ghost use Rattle.gap_words.specs.JobValue.{IsJob, job_value};
ghost use Rattle.job_frame.specs.Performs.{NothingFailed, Performs, PutsHeard, SparesFiles};
ghost use Rattle.job_frame.specs.Task.{IsAnswered};

use crate::cause::Cause;
use crate::check::check;
use crate::clock::{JobClock, Never};
use crate::plan::plan;
use crate::watcher::{JobWatcher, Nobody};
use ev_outside::{Shelf, Sink};
use gap_words::{Job, PROGRAM, job_words, usage};
use job_ending::{Program, finish};
use job_frame::Status;
use job_telling::tell;
use std::alloc::{AllocError, Global};

/// The program: its words after its name, the files and the output.
///
/// `plan FILE PLAN PROOF [--limit N] [--seconds N] [--start PLAN0] [--seed N] [--effort N] [--nodes
/// N]` reads FILE as an instance, and PLAN0 as a fleet plan or none; it writes a fleet plan, or
/// that none is held, into PLAN, and a proof of what no fleet plan costs less than into PROOF, and
/// puts cost, bound and gap. Cost and bound are equal ([`Status::Done`]), or there is no fleet plan
/// ([`Status::Negative`]), or a gap is left, or no plan is held beside a bound
/// ([`Status::Stopped`]). Where PLAN0 breaks a rule, the first one is put ([`Status::Negative`]).
///
/// `check FILE PLAN PROOF [--limit N]` reads PLAN as a fleet plan, or as none, and PROOF as such a
/// proof on the instance of FILE, and puts that they are accepted, with cost, bound and gap
/// ([`Status::Done`]), or the first rule that is broken, the plan's before the proof's
/// ([`Status::Negative`]).
///
/// `--help` alone puts the usage text, and `--version` alone the name and the version
/// ([`Status::Done`]).
///
/// `plan` and `check` put the line of the first broken rule of their files and words
/// ([`Status::Refused`]). Other words put the usage text ([`Status::Words`]). After
/// [`Status::Fault`] and [`Status::Memory`] a part of such a text may have been put. No file but
/// PLAN and PROOF of `plan` is written, and only where no rule is broken. What it holds after a
/// failed write isn't known.
pub fn run<S: Shelf, K: Sink>(alloc: Global, words: &[String], shelf: &mut S, out: &mut K) -> Status
    ensures words { result ≡ Status.Words → IsNone (job_named words.now) }
    ensures usage { IsNone (job_named words.now)
        → TellsUsage (S.state shelf.old) (S.state shelf.new)
        (K.state out.old) (K.state out.new) result }
    ensures job { IfSome (job_named words.now) (λ job.
        Performs (task_of job) (S.state shelf.old) (S.state shelf.new)
        (K.state out.old) (K.state out.new) result) }
    ensures stays { result ≢ Status.Fault
        → NothingFailed (S.state shelf.old) (S.state shelf.new)
        (K.state out.old) (K.state out.new) }
    ensures falls { CountsNeverFall (S.state shelf.old) (S.state shelf.new) }

    // With an output that takes no memory, nothing was put where memory was refused, and none is
    // refused where there are no words. With files that are written without memory too, want of it
    // left every file as it was.
    ensures memory { K.takes_memory ≡ false → result ≡ Status.Memory
        → K.state out.new ≡ K.state out.old }
    ensures spares { IfSome (job_named words.now) (λ job.
        SparesFiles (task_of job) S.writes_take_memory K.takes_memory
        (S.state shelf.old).files (S.state shelf.new).files result) }
    ensures no_words { K.takes_memory ≡ false → words.now ≡ []
        → (result ≡ Status.Words) ⊎ (result ≡ Status.Fault) }
{
    job_ending::run(
        alloc,
        words,
        shelf,
        out,
        &mut Evgap {
            clock: Never {},
            watcher: Nobody::new(),
        },
    )
}

/// The program beside a clock, which says when the search of `plan` has had the seconds that its
/// words give, and who is told how far it is.
#[derive(Drop)]
pub struct Evgap<C: JobClock + Drop, W: JobWatcher + Drop> {
    pub clock: C,
    pub watcher: W,
}

impl<C: JobClock + Drop, W: JobWatcher + Drop> Program for Evgap<C, W> {
    ghost use Rattle.evgap_run.specs.Run.{job_named, task_of};
    ghost use Rattle.gap_words.specs.JobValue.{IsJob, job_value};
    ghost use Rattle.gap_words.specs.Usage.{usage_text};
    ghost use Rattle.gap_words.specs.Words as words;

    type Job = Job;

    type Cause = Cause;

    ghost Named = { words.Job };

    ghost usage_text = { usage_text };

    ghost job_named = { job_named };

    ghost value_of = { job_value };

    ghost IsJob = { IsJob };

    ghost task_of = { task_of };

    ghost heard = { λ program. W.heard program.watcher };

    fn usage(&self) -> &'static str {
        usage()
    }

    fn job_of(&self, alloc: Global, words: &[String]) -> Result<Option<Job>, AllocError> {
        job_words(alloc, words)
    }

    fn hear(&mut self, cause: Cause) {
        self.watcher.hear(cause);
    }

    fn perform<S: Shelf, K: Sink>(
        &mut self,
        alloc: Global,
        job: &Job,
        shelf: &mut S,
        out: &mut K,
    ) -> Status {
        perform(alloc, job, shelf, out, &mut self.clock, &mut self.watcher)
    }
}

/// A job. What it finds is written and put.
fn perform<S, K, C, W>(
    alloc: Global,
    job: &Job,
    shelf: &mut S,
    out: &mut K,
    clock: &mut C,
    watcher: &mut W,
) -> Status
where
    S: Shelf,
    K: Sink,
    C: JobClock,
    W: JobWatcher,
    requires { IsJob job.now }
    ensures words { result ≢ Status.Words }
    ensures job { Performs (task_of (job_value job.now)) (S.state shelf.old) (S.state shelf.new)
        (K.state out.old) (K.state out.new) result }
    ensures heard { IsAnswered result
        → PutsHeard (task_of (job_value job.now)) (S.state shelf.old).files
        (S.state shelf.new).files (K.state out.old).written (K.state out.new).written
        result (W.heard watcher.new) }
    ensures stays { result ≢ Status.Fault
        → NothingFailed (S.state shelf.old) (S.state shelf.new)
        (K.state out.old) (K.state out.new) }
    ensures falls { CountsNeverFall (S.state shelf.old) (S.state shelf.new) }
    ensures memory { K.takes_memory ≡ false → result ≡ Status.Memory
        → K.state out.new ≡ K.state out.old }
    ensures spares { SparesFiles (task_of (job_value job.now)) S.writes_take_memory K.takes_memory
        (S.state shelf.old).files (S.state shelf.new).files result }
{
    match job {
        Job::Plan(job) => finish(plan(alloc, job, shelf, clock, watcher), shelf, out, watcher),
        Job::Check(job) => finish(check(alloc, job, shelf), shelf, out, watcher),
        Job::Tell(told) => finish(tell(alloc, *told, PROGRAM, usage()), shelf, out, watcher),
    }
}
