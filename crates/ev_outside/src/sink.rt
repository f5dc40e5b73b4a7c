//! The output.
ghost use Rattle.std.specs.Prelude.{◌≡◌, ◌≤◌, Bool, true, OnOk, OnErr, IsErrOf};
ghost use Rattle.ev_outside.specs.Counts.{Rose};
ghost use Rattle.ev_outside.specs.Sink.{SinkState, Adds, AddsPrefix};

use super::storage::CallFailed;
use thiserror::Error;

/// Why a call on a sink was refused.
#[derive(Clone, Copy, Debug, Drop, PartialEq, Eq, Error)]
pub enum SinkFault {
    /// The bytes couldn't be written. The sink's count of such faults has risen, or stands at its
    /// end.
    #[error("the output can't be written")]
    Failed,
    /// Memory was refused.
    #[error("out of memory")]
    Memory,
}

impl From<CallFailed> for SinkFault {
    ghost use Rattle.std.specs.Prelude.{◌≡◌};
    ghost use Rattle.ev_outside.specs.declared.sink.SinkFault.{SinkFault};

    ghost from_gives = { λ _ fault. fault ≡ SinkFault.Failed };

    fn from(_: CallFailed) -> Self {
        SinkFault::Failed
    }
}

/// The output of a program.
pub trait Sink {
    // The bytes that were written, where the sink tells them, and how many calls have failed.
    ghost state: { Self → SinkState };

    // Putting takes memory. Where it takes none, `Memory` never comes.
    ghost takes_memory: { Bool };

    /// Adds the bytes at the end of what was written. After a refusal a prefix of them was added.
    /// The count doesn't rise but where the call answers `Failed`.
    fn put(&mut self, bytes: &[u8]) -> Result<(), SinkFault>
        ensures bytes { OnOk result
            (Adds (state self.old).written (state self.new).written bytes.now) }
        ensures prefix { OnErr result
            (AddsPrefix (state self.old).written (state self.new).written bytes.now) }
        ensures failed { IsErrOf result SinkFault.Failed
            → Rose (state self.old).faults (state self.new).faults }
        ensures falls { (state self.old).faults ≤ (state self.new).faults }
        ensures stays { (IsErrOf result SinkFault.Failed → ⊥)
            → (state self.new).faults ≡ (state self.old).faults }
        ensures memory { IsErrOf result SinkFault.Memory → takes_memory ≡ true };
}
