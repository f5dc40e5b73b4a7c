//! The program over files and an output that never fail.

ghost use Rattle.std.specs.Prelude.{◌≡◌, ◌≢◌, Option, true};
ghost use Rattle.ev_outside.specs.Sure.{sure_output, sure_state};
ghost use Rattle.evroute_causes.specs.declared.cause.Cause.{Cause};
ghost use Rattle.evroute_run.specs.Ending.{Runs};

use crate::command::Evroute;
use crate::watcher::Nobody;
use ev_outside::{SureShelf, SureSink};
use job_frame::Status;
use std::alloc::Global;

/// The program over files and an output that never fail. It never ends with [`Status::Fault`].
pub fn run_surely(
    alloc: Global,
    words: &[String],
    shelf: &mut SureShelf,
    out: &mut SureSink,
) -> Status
    ensures runs { (heard : Option Cause)
        × Runs words.now true true (sure_state shelf.old) (sure_state shelf.new)
        (sure_output out.old) (sure_output out.new) heard result }
    ensures sure { result ≢ Status.Fault }
{
    let mut program = Evroute {
        watcher: Nobody::new(),
    };
    job_ending::run(alloc, words, shelf, out, &mut program)
}
