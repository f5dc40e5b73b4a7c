//! The program over any files and any output.

ghost use Rattle.std.specs.Prelude.{◌≡◌, ◌≢◌, ◌⊎◌, [], false, IfSome, IsNone};
ghost use Rattle.command_line.specs.JobValue.{IsJob, job_value};
ghost use Rattle.ev_outside.specs.Shelf.{CountsNeverFall};
ghost use Rattle.evroute_run.specs.Run.{TellsUsage, job_named, task_of};
ghost use Rattle.job_frame.specs.Performs.{NothingFailed, Performs, PutsHeard, SparesFiles};
ghost use Rattle.job_frame.specs.Task.{IsAnswered};

use crate::bound::bound;
use crate::check::check;
use crate::check_bound::check_bound;
use crate::check_route::check_route;
use crate::convert::convert;
use crate::fixed::fixed;
use crate::fleet::fleet;
use crate::improve::improve;
use crate::make::make;
use crate::prove::prove;
use crate::watcher::{JobWatcher, Nobody};
use command_line::{Job, job_words, usage};
use ev_outside::{Shelf, Sink};
use evroute_causes::Cause;
use job_ending::{Program, finish};
use job_frame::Status;
use mixed_run::{check_mixed_files, mixed};
use std::alloc::{AllocError, Global};

/// The program: its words after its name, the files and the output.
///
/// `fixed FILE ROUTE [--limit N] [--charge N]` reads FILE as an instance and puts a fastest plan of
/// the route ([`Status::Done`]), or that none is feasible ([`Status::Negative`]).
///
/// `fleet FILE PLAN CERT [--limit N] [--nodes N]` reads FILE as an instance, writes a fleet plan,
/// or that none is held, into PLAN, and a certificate of what no fleet plan costs less than into
/// CERT, and puts cost, bound and gap. Cost and bound are equal ([`Status::Done`]), or there is no
/// fleet plan ([`Status::Negative`]), or the search looked at N nodes before that was shown
/// ([`Status::Stopped`]).
///
/// `check FILE PLAN CERT [--limit N]` reads PLAN as a fleet plan and CERT as a certificate on the
/// instance of FILE, and puts that they are accepted, with cost, bound and gap ([`Status::Done`]),
/// or the first rule that is broken, the plan's before the certificate's ([`Status::Negative`]).
///
/// `convert FILE OUTFILE --time-digits N --energy-digits N` reads FILE, writes it into OUTFILE with
/// the numbers under the keys of times and energies as whole ones, each rounded up, and puts
/// nothing ([`Status::Done`]).
///
/// `make SEED CUSTOMERS STATIONS OUTFILE` makes an instance from SEED, writes it into OUTFILE, and
/// puts how many nodes it has, its denominator and the time of a fastest plan of the route over all
/// customers ([`Status::Done`]), or that none is feasible ([`Status::Negative`]).
///
/// `bound FILE CERT --near N [--limit N]` reads FILE as an instance, writes a proof of what no
/// fleet plan costs less than, by near routes, into CERT, and puts the bound ([`Status::Done`]), or
/// that there is no fleet plan ([`Status::Negative`]).
///
/// `check-bound FILE CERT [--limit N]` reads CERT as such a proof on the instance of FILE, and puts
/// that it is accepted, with its bound or that it has none ([`Status::Done`]), or the first rule
/// that it breaks ([`Status::Negative`]).
///
/// `prove FILE ROUTE CERT [--limit N] [--charge N]` reads FILE as an instance, writes a proof that
/// a plan of the route is a fastest one, or that none is feasible, into CERT, and puts what `fixed`
/// puts, with its status.
///
/// `check-route FILE ROUTE CERT [--limit N] [--charge N]` reads CERT as such a proof on the
/// instance of FILE, and puts that it is accepted, with the least time or that no plan is feasible
/// ([`Status::Done`]), or the first rule that it breaks ([`Status::Negative`]).
///
/// `improve FILE PLAN OUTFILE [--limit N]` reads PLAN as a fleet plan, or as none, on the instance
/// of FILE, writes a fleet plan into OUTFILE that no relocation and no exchange of customers makes
/// cheaper, and puts its cost and that of the plan before ([`Status::Done`]), or puts the first
/// rule that the plan breaks or, where there is none, the first customer whom no route of his own
/// reaches ([`Status::Negative`]).
///
/// `mixed PLAN CERT FILE.. [--limit N]` reads each FILE as the instance of one kind of vehicles,
/// writes a plan with vehicles of these kinds, or that none is held, into PLAN, and a proof of what
/// no such plan costs less than into CERT, and puts cost, bound and gap ([`Status::Done`], also
/// where the gap is above 0), or that there is no such plan ([`Status::Negative`]).
///
/// `check-mixed PLAN CERT FILE.. [--limit N]` reads PLAN and CERT as such a plan, or none, and such
/// a proof for the kinds of the FILEs, and puts that they are accepted, with cost, bound and gap
/// ([`Status::Done`]), or the first rule that is broken, the plan's before the proof's
/// ([`Status::Negative`]).
///
/// All put the line of the first broken rule of their files and words ([`Status::Refused`]). Other
/// words put the usage text ([`Status::Words`]). After [`Status::Fault`] and [`Status::Memory`] a
/// part of such a text may have been put. No file but OUTFILE, PLAN and CERT of `fleet` and
/// `mixed`, and CERT of `bound` and `prove`, is written: by `convert`, `fleet`, `mixed`, `bound`
/// and `prove` only where no rule is broken, by `make` wherever an instance is made, by `improve`
/// only where it is done. What it holds after a failed write isn't known.
pub fn run<S: Shelf, K: Sink>(alloc: Global, words: &[String], shelf: &mut S, out: &mut K) -> Status
    ensures words { result ≡ Status.Words → IsNone (job_named words.now) }
    ensures usage { IsNone (job_named words.now)
        → TellsUsage (S.state shelf.old) (S.state shelf.new)
        (K.state out.old) (K.state out.new) result }
    ensures job { IfSome (job_named words.now) (λ job.
        Performs (task_of job) (S.state shelf.old) (S.state shelf.new)
        (K.state out.old) (K.state out.new) result) }
    ensures stays { result ≢ Status.Fault
        → NothingFailed (S.state shelf.old) (S.state shelf.new)
        (K.state out.old) (K.state out.new) }
    ensures falls { CountsNeverFall (S.state shelf.old) (S.state shelf.new) }

    // With an output that takes no memory, nothing was put where memory was refused, and none is
    // refused where there are no words. With files that are written without memory too, want of it
    // left every file as it was, but for the OUTFILE of `make`.
    ensures memory { K.takes_memory ≡ false → result ≡ Status.Memory
        → K.state out.new ≡ K.state out.old }
    ensures spares { IfSome (job_named words.now) (λ job.
        SparesFiles (task_of job) S.writes_take_memory K.takes_memory
        (S.state shelf.old).files (S.state shelf.new).files result) }
    ensures no_words { K.takes_memory ≡ false → words.now ≡ []
        → (result ≡ Status.Words) ⊎ (result ≡ Status.Fault) }
{
    job_ending::run(
        alloc,
        words,
        shelf,
        out,
        &mut Evroute {
            watcher: Nobody::new(),
        },
    )
}

/// The program beside who watches its jobs: who is told how far a search, a bound, an improvement
/// or a fleet of several kinds is.
#[derive(Drop)]
pub struct Evroute<W: JobWatcher + Drop> {
    pub watcher: W,
}

impl<W: JobWatcher + Drop> Program for Evroute<W> {
    ghost use Rattle.command_line.specs.JobValue.{IsJob, job_value};
    ghost use Rattle.command_line.specs.Usage.{usage_text};
    ghost use Rattle.command_line.specs.Words as words;
    ghost use Rattle.evroute_run.specs.Run.{job_named, task_of};

    type Job = Job;

    type Cause = Cause;

    ghost Named = { words.Job };

    ghost usage_text = { usage_text };

    ghost job_named = { job_named };

    ghost value_of = { job_value };

    ghost IsJob = { IsJob };

    ghost task_of = { task_of };

    ghost heard = { λ program. W.heard program.watcher };

    fn usage(&self) -> &'static str {
        usage()
    }

    fn job_of(&self, alloc: Global, words: &[String]) -> Result<Option<Job>, AllocError> {
        job_words(alloc, words)
    }

    fn hear(&mut self, cause: Cause) {
        self.watcher.hear(cause);
    }

    fn perform<S: Shelf, K: Sink>(
        &mut self,
        alloc: Global,
        job: &Job,
        shelf: &mut S,
        out: &mut K,
    ) -> Status {
        self.watcher.watch_job(job);
        perform(alloc, job, shelf, out, &mut self.watcher)
    }
}

/// A job. What it finds is written and put; `make` writes before it seeks its answer.
fn perform<S: Shelf, K: Sink, W: JobWatcher>(
    alloc: Global,
    job: &Job,
    shelf: &mut S,
    out: &mut K,
    watcher: &mut W,
) -> Status
    requires { IsJob job.now }
    ensures words { result ≢ Status.Words }
    ensures job { Performs (task_of (job_value job.now)) (S.state shelf.old) (S.state shelf.new)
        (K.state out.old) (K.state out.new) result }
    ensures heard { IsAnswered result
        → PutsHeard (task_of (job_value job.now)) (S.state shelf.old).files
        (S.state shelf.new).files (K.state out.old).written (K.state out.new).written
        result (W.heard watcher.new) }
    ensures stays { result ≢ Status.Fault
        → NothingFailed (S.state shelf.old) (S.state shelf.new)
        (K.state out.old) (K.state out.new) }
    ensures falls { CountsNeverFall (S.state shelf.old) (S.state shelf.new) }
    ensures memory { K.takes_memory ≡ false → result ≡ Status.Memory
        → K.state out.new ≡ K.state out.old }
    ensures spares { SparesFiles (task_of (job_value job.now)) S.writes_take_memory K.takes_memory
        (S.state shelf.old).files (S.state shelf.new).files result }
{
    match job {
        Job::Fixed(job) => finish(fixed(alloc, job, shelf), shelf, out, watcher),
        Job::Fleet(job) => finish(fleet(alloc, job, shelf, watcher), shelf, out, watcher),
        Job::Check(job) => finish(check(alloc, job, shelf), shelf, out, watcher),
        Job::Convert(job) => finish(convert(alloc, job, shelf), shelf, out, watcher),
        Job::Make(job) => make(alloc, job, shelf, out, watcher),
        Job::Bound(job) => finish(bound(alloc, job, shelf, watcher), shelf, out, watcher),
        Job::CheckBound(job) => finish(check_bound(alloc, job, shelf), shelf, out, watcher),
        Job::Prove(job) => finish(prove(alloc, job, shelf), shelf, out, watcher),
        Job::CheckRoute(job) => finish(check_route(alloc, job, shelf), shelf, out, watcher),
        Job::Improve(job) => finish(improve(alloc, job, shelf, watcher), shelf, out, watcher),
        Job::Mixed(job) => finish(mixed(alloc, job, shelf, watcher), shelf, out, watcher),
        Job::CheckMixed(job) => finish(check_mixed_files(alloc, job, shelf), shelf, out, watcher),
    }
}
