//! The steps behind the last read: files are written, and then the answer is put.

ghost use Rattle.std.specs.Prelude.{◌≡◌, ◌≢◌, [], false, true, IsErrOf, OnOk, map};
ghost use Rattle.ev_outside.specs.Counts.{Rose};
ghost use Rattle.ev_outside.specs.Shelf.{CountsNeverFall, CountsStay};
ghost use Rattle.ev_outside.specs.Sink.{Adds, AddsPrefix};
ghost use Rattle.job_frame.specs.Finds.{outcome_of, written_by};
ghost use Rattle.job_frame.specs.Faults.{Concludes, FailsWriting, StopsWriting};
ghost use Rattle.job_frame.specs.Task.{IsAnswered};
ghost use Rattle.job_frame.specs.Writes.{AreDifferent, Leaves};

use crate::cause::JobCause;
use crate::found::{Answer, Found, NewFile};
use crate::status::Status;
use ev_outside::{Shelf, ShelfFault, Sink, SinkFault};

/// What a job found is written and put: its files in order, then the text of its answer. The status
/// is that of the answer, unless a file or the output fails or memory is refused; then nothing
/// further is written or put.
pub fn conclude<C: JobCause, S: Shelf, K: Sink>(
    found: &Found<C>,
    shelf: &mut S,
    out: &mut K,
) -> Status
    requires answered { IsAnswered found.now.answer.status }
    requires different { AreDifferent (outcome_of found.now).writes }
    ensures concludes { Concludes (outcome_of found.now) (S.state shelf.old) (S.state shelf.new)
        (K.state out.old) (K.state out.new) result }
    ensures words { result ≢ Status.Words }
    ensures stays { result ≢ Status.Fault → CountsStay (S.state shelf.old) (S.state shelf.new) }
    ensures sink { result ≢ Status.Fault → (K.state out.new).faults ≡ (K.state out.old).faults }
    ensures falls { CountsNeverFall (S.state shelf.old) (S.state shelf.new) }
    ensures memory { K.takes_memory ≡ false → result ≡ Status.Memory
        → K.state out.new ≡ K.state out.old }
    ensures never_memory { S.writes_take_memory ≡ false → K.takes_memory ≡ false
        → result ≢ Status.Memory }
{
    match write_all(found.files.as_slice(), shelf) {
        Ok(()) => put_answer(&found.answer, out),
        Err(ShelfFault::Failed) => Status::Fault,
        Err(ShelfFault::Memory) => Status::Memory,
    }
}

/// Writes the files in order, until one of them fails or memory is refused.
fn write_all<S: Shelf>(files: &[NewFile], shelf: &mut S) -> Result<(), ShelfFault>
    requires { AreDifferent (map written_by files.now) }
    ensures ok { OnOk result (Leaves (map written_by files.now)
        (S.state shelf.old).files (S.state shelf.new).files) }
    ensures failed { IsErrOf result ShelfFault.Failed → FailsWriting (map written_by files.now)
        (S.state shelf.old) (S.state shelf.new) }
    ensures memory { IsErrOf result ShelfFault.Memory → StopsWriting (map written_by files.now)
        (S.state shelf.old).files (S.state shelf.new).files }
    ensures takes_memory { IsErrOf result ShelfFault.Memory → S.writes_take_memory ≡ true }
    ensures stays { (IsErrOf result ShelfFault.Failed → ⊥)
        → CountsStay (S.state shelf.old) (S.state shelf.new) }
    ensures falls { CountsNeverFall (S.state shelf.old) (S.state shelf.new) }
{
    match files {
        [] => Ok(()),
        [file, others @ ..] => match shelf.write(file.name.as_str(), file.bytes.as_slice()) {
            Ok(()) => write_all(others, shelf),
            Err(fault) => Err(fault),
        },
    }
}

/// Puts the text of an answer. The status is that of the answer, unless the output fails or memory
/// is refused. Where the text is empty the output isn't called.
pub fn put_answer<C: JobCause, K: Sink>(answer: &Answer<C>, out: &mut K) -> Status
    requires { IsAnswered answer.now.status }
    ensures answer { IsAnswered result → (result ≡ answer.now.status)
        × Adds (K.state out.old).written (K.state out.new).written answer.now.text.items }
    ensures part { AddsPrefix (K.state out.old).written
        (K.state out.new).written answer.now.text.items }
    ensures fault { result ≡ Status.Fault → Rose (K.state out.old).faults (K.state out.new).faults }
    ensures stays { result ≢ Status.Fault → (K.state out.new).faults ≡ (K.state out.old).faults }
    ensures empty { answer.now.text.items ≡ []
        → (result ≡ answer.now.status) × (K.state out.new ≡ K.state out.old) }
    ensures words { result ≢ Status.Words }
    ensures memory { K.takes_memory ≡ false → result ≢ Status.Memory }
{
    if answer.text.is_empty() {
        return answer.status;
    }
    match out.put(answer.text.as_slice()) {
        Ok(()) => answer.status,
        Err(SinkFault::Failed) => Status::Fault,
        Err(SinkFault::Memory) => Status::Memory,
    }
}
