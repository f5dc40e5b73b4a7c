//! The step that reads a file.

ghost use Rattle.std.specs.Prelude.{◌≡◌, IfOk, IsErrOf};
ghost use Rattle.ev_outside.specs.Shelf.{CountsNeverFall, CountsStay};
ghost use Rattle.job_frame.specs.Task.{AreReadUpTo};
ghost use Rattle.job_frame.specs.Faults.{HasFailedRead};

use ev_outside::{Shelf, ShelfFault};
use std::alloc::Global;

/// The bytes of a file, or its first `most` where there are more.
pub fn read_file<S: Shelf>(
    alloc: Global,
    name: &str,
    most: usize,
    shelf: &mut S,
) -> Result<Vec<u8>, ShelfFault>
    ensures bytes { IfOk result
        (λ bytes. AreReadUpTo most (S.state shelf.old).files name.now bytes.items) }
    ensures fault { IsErrOf result ShelfFault.Failed
        → HasFailedRead (S.state shelf.old) (S.state shelf.new) name.now }
    ensures stays { (IsErrOf result ShelfFault.Failed → ⊥)
        → CountsStay (S.state shelf.old) (S.state shelf.new) }
    ensures falls { CountsNeverFall (S.state shelf.old) (S.state shelf.new) }
    ensures files { (S.state shelf.new).files ≡ (S.state shelf.old).files }
{
    let mut bytes = Vec::new(alloc);
    match shelf.read(name, most, &mut bytes) {
        Ok(()) => Ok(bytes),
        Err(fault) => Err(fault),
    }
}
