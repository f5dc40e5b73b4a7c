//! Which call of the system failed last, for people.

ghost use Rattle.std.specs.Prelude.{◌≡◌, ◌↔◌, IfSome, IsNone, Option, Some};
ghost use Rattle.std.specs.declared.io.Error.{Error};
ghost use Rattle.ev_outside.specs.Shelf.{HasAsked};
ghost use Rattle.ev_outside.specs.SystemName.{asked_by};
ghost use Rattle.job_ending.specs.Ending.{IsLastFailure, output_name};

use ev_outside::{Failure, FileShelf, OutSink, Shelf, Sink};
use std::io::Print;
use std::rt::Files;

/// Named files that know the last call of the system on them that failed.
pub trait FailingShelf: Shelf {
    // Why the last call on the file that was asked for last that failed did, where one has.
    ghost cause: { Self → Option Error };

    /// The last call that failed on the file that was asked for last, under its name where that is
    /// kept. None comes exactly where none has.
    fn last_failure(&self) -> Option<Failure<'_>>
        ensures name { IfSome result (λ failure.
            HasAsked failure.name.now (Self.state self.now).asked) }
        ensures none { IsNone result ↔ IsNone (cause self.now) }
        ensures cause { IfSome result (λ failure. cause self.now ≡ Some failure.cause) };
}

/// An output that knows the last call of the system on it that failed.
pub trait FailingSink: Sink {
    // Why the last call that failed did, where one has.
    ghost cause: { Self → Option Error };

    /// The last call that failed, under the name of the output. None comes exactly where none has.
    fn last_failure(&self) -> Option<Failure<'_>>
        ensures name { IfSome result (λ failure. failure.name.now ≡ output_name) }
        ensures none { IsNone result ↔ IsNone (cause self.now) }
        ensures cause { IfSome result (λ failure. cause self.now ≡ Some failure.cause) };
}

impl<'a, R: Files> FailingShelf for FileShelf<'a, R> {
    ghost cause = { λ shelf. shelf.storage.cause };

    fn last_failure(&self) -> Option<Failure<'_>>
        ensures name { IfSome result (λ failure.
            HasAsked failure.name.now (asked_by self.now.storage.name)) }
        ensures none { IsNone result ↔ IsNone self.now.storage.cause }
        ensures cause { IfSome result (λ failure.
            self.now.storage.cause ≡ Some failure.cause) }
    {
        self.storage().last_failure()
    }
}

impl<'a, R: Print> FailingSink for OutSink<'a, R> {
    ghost cause = { λ sink. sink.stream.cause };

    fn last_failure(&self) -> Option<Failure<'_>>
        ensures name { IfSome result (λ failure. failure.name.now ≡ output_name) }
        ensures none { IsNone result ↔ IsNone self.now.stream.cause }
        ensures cause { IfSome result (λ failure. self.now.stream.cause ≡ Some failure.cause) }
    {
        self.stream().last_failure()
    }
}

/// The last call that failed: of the output, or else of the file that was asked for last.
pub(crate) fn failure_of<'a, S, K>(shelf: &'a S, out: &'a K) -> Option<Failure<'a>>
where
    S: FailingShelf,
    K: FailingSink,
    ensures { IsLastFailure (K.cause out.now) (S.cause shelf.now) (S.state shelf.now).asked
        result }
{
    out.last_failure().or(shelf.last_failure())
}
