//! Named files.
ghost use Rattle.std.specs.Prelude.{◌≡◌, Bool, true, OnOk, OnErr, IsErrOf};
ghost use Rattle.ev_outside.specs.Counts.{Rose};
ghost use Rattle.ev_text.specs.Scans.{IsPrefixOf};
ghost use Rattle.ev_outside.specs.Shelf.{ShelfState, AppendsFile, CountsNeverFall, CountsStay, HasAsked, HoldsUnder, KeepsOthers};

use super::storage::CallFailed;
use thiserror::Error;

/// Why a call on a shelf was refused.
#[derive(Clone, Copy, Debug, Drop, PartialEq, Eq, Error)]
pub enum ShelfFault {
    /// The file couldn't be read or written. The shelf's count of such faults has risen, or stands
    /// at its end.
    #[error("the file can't be read or written")]
    Failed,
    /// Memory was refused.
    #[error("out of memory")]
    Memory,
}

impl From<CallFailed> for ShelfFault {
    ghost use Rattle.std.specs.Prelude.{◌≡◌};
    ghost use Rattle.ev_outside.specs.declared.shelf.ShelfFault.{ShelfFault};

    ghost from_gives = { λ _ fault. fault ≡ ShelfFault.Failed };

    fn from(_: CallFailed) -> Self {
        ShelfFault::Failed
    }
}

/// Named files. Names and contents are bytes.
pub trait Shelf {
    // Which names hold which bytes, where the shelf tells it, how many reads and writes of each
    // name have failed, and which name was asked for last, where that is kept.
    ghost state: { Self → ShelfState };

    // Writing takes memory. Where it takes none, `write` never answers `Memory`.
    ghost writes_take_memory: { Bool } = { true };

    /// Appends the bytes of the file to `into`, or its first `most` bytes where it is longer. A
    /// name that isn't there has no bytes. After a refusal a part of them may have been appended.
    /// No count rises but where the call answers `Failed`.
    fn read(&mut self, name: &str, most: usize, into: &mut Vec<u8>) -> Result<(), ShelfFault>
        ensures bytes { OnOk result
            (AppendsFile (state self.old).files name.now most into.old.items into.new.items) }
        ensures prefix { OnErr result (IsPrefixOf into.old.items into.new.items) }
        ensures files { (state self.new).files ≡ (state self.old).files }
        ensures failed { IsErrOf result ShelfFault.Failed
            → Rose ((state self.old).failed_reads name.now)
            ((state self.new).failed_reads name.now) }
        ensures falls { CountsNeverFall (state self.old) (state self.new) }
        ensures stays { (IsErrOf result ShelfFault.Failed → ⊥)
            → CountsStay (state self.old) (state self.new) }
        ensures asked { HasAsked name.now (state self.new).asked };

    /// Leaves exactly these bytes under the name. After `Failed` nothing is known of the bytes
    /// under this name. No count rises but where the call answers `Failed`.
    fn write(&mut self, name: &str, bytes: &[u8]) -> Result<(), ShelfFault>
        ensures bytes { OnOk result (HoldsUnder (state self.new).files name.now bytes.now) }
        ensures others { KeepsOthers name.now (state self.old).files (state self.new).files }
        ensures memory { IsErrOf result ShelfFault.Memory
            → (state self.new).files ≡ (state self.old).files }
        ensures failed { IsErrOf result ShelfFault.Failed
            → Rose ((state self.old).failed_writes name.now)
            ((state self.new).failed_writes name.now) }
        ensures falls { CountsNeverFall (state self.old) (state self.new) }
        ensures stays { (IsErrOf result ShelfFault.Failed → ⊥)
            → CountsStay (state self.old) (state self.new) }
        ensures asked { HasAsked name.now (state self.new).asked }
        ensures takes_memory { IsErrOf result ShelfFault.Memory → writes_take_memory ≡ true };

    /// Asks whether the file can be written, before it is. No file changes for it. `Failed` counts
    /// as a write that failed; no count rises otherwise. That a file can be written promises
    /// nothing of a write that comes later.
    fn ask_to_write(&mut self, name: &str) -> Result<(), ShelfFault>
        ensures files { (state self.new).files ≡ (state self.old).files }
        ensures failed { IsErrOf result ShelfFault.Failed
            → Rose ((state self.old).failed_writes name.now)
            ((state self.new).failed_writes name.now) }
        ensures falls { CountsNeverFall (state self.old) (state self.new) }
        ensures stays { (IsErrOf result ShelfFault.Failed → ⊥)
            → CountsStay (state self.old) (state self.new) }
        ensures asked { HasAsked name.now (state self.new).asked }
        ensures takes_memory { IsErrOf result ShelfFault.Memory → writes_take_memory ≡ true };
}
