//! A program: its words become a job, which is done over any files and any output.

ghost use Rattle.std.specs.Prelude.{◌≡◌, ◌≢◌, ◌⊎◌, [], false, IfErr, IfOk, IfSome, IsNone, List, None, Ok, Option, Some, String, option_map, ℕ};
ghost use Rattle.std.specs.Process.{exit_status};
ghost use Rattle.std.specs.IoError.{error_kind};
ghost use Rattle.std.specs.declared.alloc.Global.{Global};
ghost use Rattle.ev_outside.specs.Shelf.{CountsNeverFall};
ghost use Rattle.job_ending.specs.Ending.{IsToldAt, Tells, TellsIfSome};
ghost use Rattle.job_ending.specs.Running.{RunsFor};
ghost use Rattle.job_ending.specs.declared.message.Message.{Message};
ghost use Rattle.job_frame.specs.Codes.{code_of};
ghost use Rattle.job_frame.specs.Performs.{NothingFailed, Performs, PutsHeard, SparesFiles};
ghost use Rattle.job_frame.specs.Task.{IsAnswered, Task};
ghost use Rattle.job_frame.specs.declared.status.Status.{Status};

use crate::diagnostics::Diagnostics;
use crate::ending::{end_run, end_without_words};
use crate::failing::{FailingShelf, FailingSink};
use crate::finishing::put_usage;
use crate::message::Message;
use ev_outside::{Shelf, Sink};
use job_frame::{CauseListener, JobCause, Status};
use std::alloc::{AllocError, Global};
use std::io::{self, ErrorKind};
use std::process::ExitCode;

/// A program: how it is called, which job its words name, and how a job is done.
pub trait Program {
    /// A job that was read of its words.
    type Job: Drop;
    /// Why an answer of its jobs isn't the one that was asked for.
    type Cause: JobCause;

    // the jobs that its words may name
    ghost Named: { Type 0 };
    // the text that says how it is called
    ghost usage_text: { List ℕ };
    // the job that words name, if they name one
    ghost job_named: { List (String Global) → Option Named };
    // the job that was read is this one
    ghost value_of: { Self.Job → Named };
    // it can be done as it was read: what the words promise of it
    ghost IsJob: { Self.Job → Type 0 };
    // a job as a task: what it reads, and what it answers
    ghost task_of: { Named → Task Self.Cause };
    // the cause that was heard last, where any was
    ghost heard: { Self → Option Self.Cause };

    /// The usage text: how the program is called, a line a command.
    fn usage(&self) -> &'static str
        ensures { result.now ≡ usage_text };

    /// The job of the words, which stand behind the program's name. `None` comes exactly where they
    /// name none. No words at all are no job, and take no memory.
    fn job_of(&self, alloc: Global, words: &[String]) -> Result<Option<Self::Job>, AllocError>
        ensures job { IfOk result (λ job. option_map value_of job ≡ job_named words.now) }
        ensures is { IfOk result (λ job. IfSome job IsJob) }
        ensures no_words { words.now ≡ [] → result ≡ Ok None };

    /// People hear why the answer isn't the one that was asked for.
    fn hear(&mut self, cause: Self::Cause)
        ensures { heard self.new ≡ Some cause };

    /// A job is done: what it finds is written and put.
    fn perform<S: Shelf, K: Sink>(
        &mut self,
        alloc: Global,
        job: &Self::Job,
        shelf: &mut S,
        out: &mut K,
    ) -> Status
        requires { IsJob job.now }
        ensures words { result ≢ Status.Words }
        ensures job { Performs (task_of (value_of job.now)) (S.state shelf.old) (S.state shelf.new)
            (K.state out.old) (K.state out.new) result }
        ensures heard { IsAnswered result
            → PutsHeard (task_of (value_of job.now)) (S.state shelf.old).files
            (S.state shelf.new).files (K.state out.old).written (K.state out.new).written
            result (heard self.new) }
        ensures stays { result ≢ Status.Fault
            → NothingFailed (S.state shelf.old) (S.state shelf.new)
            (K.state out.old) (K.state out.new) }
        ensures falls { CountsNeverFall (S.state shelf.old) (S.state shelf.new) }
        ensures memory { K.takes_memory ≡ false → result ≡ Status.Memory
            → K.state out.new ≡ K.state out.old }
        ensures spares { SparesFiles (task_of (value_of job.now))
            S.writes_take_memory K.takes_memory
            (S.state shelf.old).files (S.state shelf.new).files result };
}

/// How a program ended, and the job that its words named, where they named one.
#[derive(Drop)]
pub struct End<J: Drop> {
    pub code: ExitCode,
    pub job: Option<J>,
}

/// A program from its words after its name, over files and an output: the job that they name is
/// done, or the usage text is put ([`Status::Words`]). After [`Status::Fault`] and
/// [`Status::Memory`] a part of what was to be put may have been.
pub fn run<P: Program, S: Shelf, K: Sink>(
    alloc: Global,
    words: &[String],
    shelf: &mut S,
    out: &mut K,
    program: &mut P,
) -> Status
    ensures { RunsFor P.usage_text P.Cause.words P.task_of words.now (P.job_named words.now)
        S.writes_take_memory K.takes_memory (S.state shelf.old) (S.state shelf.new)
        (K.state out.old) (K.state out.new) (P.heard program.new) result }
{
    let read = program.job_of(alloc, words);
    run_read(alloc, &read, shelf, out, program)
}

/// The same, of the job that was read of words.
fn run_read<P: Program, S: Shelf, K: Sink>(
    alloc: Global,
    read: &Result<Option<P::Job>, AllocError>,
    shelf: &mut S,
    out: &mut K,
    program: &mut P,
) -> Status
    requires { IfOk read.now (λ job. IfSome job P.IsJob) }
    ensures { (words : List (String Global))
        → IfOk read.now (λ job. option_map P.value_of job ≡ P.job_named words)
        → (words ≡ [] → read.now ≡ Ok None)
        → RunsFor P.usage_text P.Cause.words P.task_of words (P.job_named words)
        S.writes_take_memory K.takes_memory (S.state shelf.old) (S.state shelf.new)
        (K.state out.old) (K.state out.new) (P.heard program.new) result }
{
    match read {
        Ok(Some(job)) => program.perform(alloc, job, shelf, out),
        Ok(None) => {
            program.hear(P::Cause::words());
            put_usage(program.usage(), out)
        }
        Err(AllocError) => Status::Memory,
    }
}

/// A program as the system sees it: [`run`], and the exit status of its status. It ends and does
/// what `run` says.
pub fn exit_code<P: Program, S: Shelf, K: Sink>(
    alloc: Global,
    words: &[String],
    shelf: &mut S,
    out: &mut K,
    program: &mut P,
) -> u8
    ensures { (ended : Status) × (result ≡ code_of ended)
        × RunsFor P.usage_text P.Cause.words P.task_of words.now (P.job_named words.now)
        S.writes_take_memory K.takes_memory (S.state shelf.old) (S.state shelf.new)
        (K.state out.old) (K.state out.new) (P.heard program.new) ended }
{
    run(alloc, words, shelf, out, program).code()
}

/// A program from its words, or from why the system gives none: the job that they name, the exit
/// status of how it ends, and what people are told.
pub fn run_to_end<P, S, K, D>(
    alloc: Global,
    words: &io::Result<Vec<String>>,
    shelf: &mut S,
    out: &mut K,
    people: &mut D,
    program: &mut P,
) -> End<P::Job>
where
    P: Program,
    S: FailingShelf,
    K: FailingSink,
    D: Diagnostics,
    ensures runs { IfOk words.now (λ words. (ended : Status)
        × (exit_status result.code ≡ code_of ended)
        × RunsFor P.usage_text P.Cause.words P.task_of words.items (P.job_named words.items)
        S.writes_take_memory K.takes_memory (S.state shelf.old) (S.state shelf.new)
        (K.state out.old) (K.state out.new) (P.heard program.new) ended) }
    ensures job { IfOk words.now (λ words.
        IfSome result.job (λ job. P.job_named words.items ≡ Some (P.value_of job))) }
    ensures told { IfOk words.now (λ _. (message : Option Message)
        × IsToldAt (exit_status result.code) (K.cause out.new) (S.cause shelf.new)
        (S.state shelf.new).asked message
        × TellsIfSome (D.told people.old) message (D.told people.new)) }
    ensures memory { IfErr words.now (λ error. error_kind error ≡ ErrorKind.OutOfMemory
        → (exit_status result.code ≡ code_of Status.Memory)
        × Tells (D.told people.old) Message.Memory (D.told people.new)) }
    ensures no_words { IfErr words.now (λ error. error_kind error ≢ ErrorKind.OutOfMemory
        → (exit_status result.code ≡ 7)
        × Tells (D.told people.old) (Message.Words error) (D.told people.new)) }
    ensures untouched { IfErr words.now (λ _.
        (S.state shelf.new ≡ S.state shelf.old) × (K.state out.new ≡ K.state out.old)) }
{
    let words = match words {
        Ok(words) => words,
        Err(error) => {
            let code = end_without_words(people, *error);
            return End { code, job: None };
        }
    };
    let read = program.job_of(alloc, words.as_slice());
    let code = run_read(alloc, &read, shelf, out, program).code();
    let code = end_run(people, code, shelf, out);
    End {
        code,
        job: read.unwrap_or(None),
    }
}
