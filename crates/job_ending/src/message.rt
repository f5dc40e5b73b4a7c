//! What people are told on standard error where the exit status alone would leave them without a
//! cause.

use ev_outside::Failure;
use job_frame::Status;
use std::fmt::{self, Display, Formatter};
use std::io::Error;

/// Why a program ended without an answer. Standard output is never told of it.
#[derive(Clone, Copy)]
pub enum Message<'a> {
    /// A file or the output failed, in this call of the system where it is known.
    Failure(Option<Failure<'a>>),
    /// Memory was refused.
    Memory,
    /// The system gives no words.
    Words(Error),
}

impl<'a> Message<'a> {
    ghost use Rattle.std.specs.Prelude.{◌≡◌, ◌≢◌, IsNone, Some};
    ghost use Rattle.job_frame.specs.Codes.{code_of};

    /// The message at an exit status, where the last call of the system that failed is this one.
    /// There is none where the job was answered.
    pub fn at(code: u8, failure: Option<Failure<'a>>) -> Option<Message<'a>>
        ensures memory { code ≡ code_of Status.Memory → result ≡ Some Message.Memory }
        ensures fault { code ≡ code_of Status.Fault
            → result ≡ Some (Message.Failure failure.entry) }
        ensures none { code ≢ code_of Status.Memory → code ≢ code_of Status.Fault → IsNone result }
    {
        if code == Status::Memory.code() {
            return Some(Message::Memory);
        }
        if code == Status::Fault.code() {
            return Some(Message::Failure(failure));
        }
        None
    }
}

impl Display for Message<'_> {
    fn fmt<W: fmt::Write>(&self, f: &mut Formatter<W>) -> fmt::Result {
        match self {
            Message::Failure(Some(failure)) => write!(f, "{failure}"),
            Message::Failure(None) => write!(f, "a file or the output failed"),
            Message::Memory => write!(f, "out of memory"),
            Message::Words(cause) => write!(f, "the words can't be had: {cause}"),
        }
    }
}
