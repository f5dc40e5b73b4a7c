//! Where people are told why a program ended without an answer.

ghost use Rattle.std.specs.Prelude.{List, None, Option};
ghost use Rattle.job_ending.specs.Ending.{Tells};
ghost use Rattle.job_ending.specs.declared.message.Message.{Message};

use crate::message::Message;
use std::io::Eprint;

/// What people read beside the output.
pub trait Diagnostics {
    // The messages that they were told, where these are kept.
    ghost told: { Self → Option (List Message) };

    /// Tells them a message.
    fn tell(&mut self, message: Message<'_>)
        ensures { Tells (told self.old) message.entry (told self.new) };
}

/// The standard error of a system, where the name of the program stands in front of each message.
/// Nothing is done where it fails, nor is a file told of that it goes to.
#[derive(Drop)]
pub struct SystemDiagnostics<'a, R: Eprint> {
    rt: &'a R,
    program: &'a str,
}

impl<'a, R: Eprint> SystemDiagnostics<'a, R> {
    /// The standard error of the runtime, for a program of this name.
    pub fn new(rt: &'a R, program: &'a str) -> Self {
        SystemDiagnostics { rt, program }
    }
}

impl<'a, R: Eprint> Diagnostics for SystemDiagnostics<'a, R> {
    ghost told = { λ _. None };

    fn tell(&mut self, message: Message<'_>) {
        if let Message::Failure(Some(failure)) = message {
            if failure.is_standard_error {
                return;
            }
        }
        let program = self.program;
        let _ = eprintln!(self.rt; "{program}: {message}");
    }
}
