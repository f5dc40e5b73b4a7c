//! The step that asks whether a file can be written.

ghost use Rattle.std.specs.Prelude.{◌≡◌};
ghost use Rattle.job_frame.specs.Asks.{Asks};

use ev_outside::{Shelf, ShelfFault};

/// Asks whether a file can be written that a job will write, before its answer is sought.
pub fn ask_file<S: Shelf>(name: &str, shelf: &mut S) -> Result<(), ShelfFault>
    ensures { Asks (λ asked. asked ≡ name.now) (S.state shelf.old) (S.state shelf.new) result }
{
    shelf.ask_to_write(name)
}
