//! The end of a job that found its answer, or why it has none, before anything was written; and
//! what is put where the words name no job.

ghost use Rattle.std.specs.Prelude.{◌≡◌, ◌≢◌, false, IfOk, IfSome, Some};
ghost use Rattle.ev_outside.specs.Counts.{Rose};
ghost use Rattle.ev_outside.specs.Shelf.{CountsNeverFall};
ghost use Rattle.ev_outside.specs.Sink.{Adds, AddsPrefix};
ghost use Rattle.job_ending.specs.Finishing.{Finishes};
ghost use Rattle.job_frame.specs.Finds.{outcome_of};
ghost use Rattle.job_frame.specs.Performs.{EndsUnlessHindered, NothingFailed};
ghost use Rattle.job_frame.specs.Task.{IsAnswered};
ghost use Rattle.job_frame.specs.Writes.{AreDifferent};

use ev_outside::{Shelf, ShelfFault, Sink, SinkFault};
use job_frame::{CauseListener, Found, JobCause, Status, conclude};

/// What was found is written and put, and a listener hears its cause; or the status tells why
/// nothing was found.
pub fn finish<C: JobCause, S: Shelf, K: Sink, L: CauseListener<C>>(
    found: Result<Found<C>, ShelfFault>,
    shelf: &mut S,
    out: &mut K,
    listener: &mut L,
) -> Status
    requires answered { IfOk found (λ f. IsAnswered f.answer.status) }
    requires different { IfOk found (λ f. AreDifferent (outcome_of f).writes) }
    ensures finishes { Finishes found (S.state shelf.old) (S.state shelf.new)
        (K.state out.old) (K.state out.new) result }
    ensures heard { IfOk found (λ f.
        IfSome f.answer.cause (λ cause. L.heard listener.new ≡ Some cause)) }
    ensures words { result ≢ Status.Words }
    ensures stays { result ≢ Status.Fault
        → NothingFailed (S.state shelf.old) (S.state shelf.new)
        (K.state out.old) (K.state out.new) }
    ensures falls { CountsNeverFall (S.state shelf.old) (S.state shelf.new) }
    ensures memory { K.takes_memory ≡ false → result ≡ Status.Memory
        → K.state out.new ≡ K.state out.old }
    ensures spares { S.writes_take_memory ≡ false → K.takes_memory ≡ false
        → result ≡ Status.Memory → S.state shelf.new ≡ S.state shelf.old }
{
    match found {
        Ok(found) => {
            found.answer.tell(listener);
            conclude(&found, shelf, out)
        }
        Err(ShelfFault::Failed) => Status::Fault,
        Err(ShelfFault::Memory) => Status::Memory,
    }
}

/// Who keeps the cause that was heard last.
#[derive(Drop)]
pub struct LastCause<C: JobCause> {
    cause: Option<C>,
}

impl<C: JobCause> LastCause<C> {
    /// Nothing was heard yet.
    pub fn new() -> Self {
        LastCause { cause: None }
    }

    /// The cause that was heard last, where any was.
    pub fn cause(&self) -> Option<C>
        ensures { result ≡ self.now.cause }
    {
        self.cause
    }
}

impl<C: JobCause> CauseListener<C> for LastCause<C> {
    ghost heard = { λ listener. listener.cause };

    fn hear(&mut self, cause: C) {
        self.cause = Some(cause);
    }
}

/// Puts the text that says how a program is called. The status is that of words that name no job,
/// unless the output fails or memory is refused.
pub fn put_usage<K: Sink>(text: &str, out: &mut K) -> Status
    ensures status { EndsUnlessHindered Status.Words result }
    ensures whole { result ≡ Status.Words
        → Adds (K.state out.old).written (K.state out.new).written text.now }
    ensures part { AddsPrefix (K.state out.old).written (K.state out.new).written text.now }
    ensures fault { result ≡ Status.Fault → Rose (K.state out.old).faults (K.state out.new).faults }
    ensures stays { result ≢ Status.Fault → (K.state out.new).faults ≡ (K.state out.old).faults }
    ensures memory { K.takes_memory ≡ false → result ≢ Status.Memory }
{
    match out.put(text.as_bytes()) {
        Ok(()) => Status::Words,
        Err(SinkFault::Failed) => Status::Fault,
        Err(SinkFault::Memory) => Status::Memory,
    }
}
