//! The end of a program.

ghost use Rattle.std.specs.Prelude.{◌≡◌, ◌≢◌, Option};
ghost use Rattle.std.specs.Process.{exit_status};
ghost use Rattle.std.specs.IoError.{error_kind};
ghost use Rattle.job_ending.specs.Ending.{IsToldAt, Tells, TellsIfSome};
ghost use Rattle.job_ending.specs.declared.message.Message.{Message};
ghost use Rattle.job_frame.specs.Codes.{code_of};

use crate::diagnostics::Diagnostics;
use crate::failing::{FailingShelf, FailingSink, failure_of};
use crate::message::Message;
use job_frame::Status;
use std::io::{Error, ErrorKind};
use std::process::ExitCode;

/// The exit status where the system gives no words, which no [`Status`] has.
const NO_WORDS: u8 = 7;

/// The end where the words can't be had.
pub fn end_without_words<D: Diagnostics>(people: &mut D, error: Error) -> ExitCode
    ensures memory { error_kind error ≡ ErrorKind.OutOfMemory
        → (exit_status result ≡ code_of Status.Memory)
        × Tells (D.told people.old) Message.Memory (D.told people.new) }
    ensures no_words { error_kind error ≢ ErrorKind.OutOfMemory
        → (exit_status result ≡ 7)
        × Tells (D.told people.old) (Message.Words error) (D.told people.new) }
{
    if error.kind() == ErrorKind::OutOfMemory {
        end_at(people, Status::Memory.code(), Some(Message::Memory))
    } else {
        end_at(people, NO_WORDS, Some(Message::Words(error)))
    }
}

/// The end of a run over these files and this output with an exit status: people are told the
/// message at it.
pub fn end_run<S, K, D>(people: &mut D, code: u8, shelf: &S, out: &K) -> ExitCode
where
    S: FailingShelf,
    K: FailingSink,
    D: Diagnostics,
    ensures status { exit_status result ≡ code }
    ensures told { (message : Option Message)
        × IsToldAt (exit_status result) (K.cause out.now) (S.cause shelf.now)
        (S.state shelf.now).asked message
        × TellsIfSome (D.told people.old) message (D.told people.new) }
{
    let failure = failure_of(shelf, out);
    end_at(people, code, Message::at(code, failure))
}

/// The end with an exit status, and with a message where there is one.
fn end_at<D: Diagnostics>(people: &mut D, code: u8, message: Option<Message<'_>>) -> ExitCode
    ensures status { exit_status result ≡ code }
    ensures told { TellsIfSome (D.told people.old) message.entry (D.told people.new) }
{
    if let Some(message) = message {
        people.tell(message);
    }
    ExitCode::from(code)
}
