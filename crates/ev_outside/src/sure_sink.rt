//! An output in memory that never fails, for tests.
ghost use Rattle.std.specs.Prelude.{◌≡◌, ◌≤◌, ◌++◌, ℕ, List, [], Some, true, OnOk, OnErr, IsErrOf};
ghost use Rattle.ev_outside.specs.Counts.{Rose};
ghost use Rattle.ev_outside.specs.Sink.{Adds, AddsPrefix};
ghost use Rattle.ev_outside.specs.Sure.{sure_output};

use super::sink::{Sink, SinkFault};
use std::alloc::Global;
use std::marker::Model;

/// An output in memory. No call fails, and its count is always 0.
#[derive(Drop)]
pub struct SureSink {
    bytes: Vec<u8>,
}

// The output is seen as what was written.
impl Model for SureSink {
    ghost use Rattle.std.specs.Prelude.{ℕ, List};

    ghost Value = { List ℕ };

    ghost view = { λ sink. sink.bytes.items };
}

impl SureSink {
    /// No bytes yet.
    pub fn new(alloc: Global) -> SureSink
        ensures { sure_output result ≡ record { written = Some []; faults = 0 } }
    {
        SureSink {
            bytes: Vec::new(alloc),
        }
    }

    /// What was written.
    pub fn bytes(&self) -> &[u8]
        ensures { result.now ≡ self.now }
    {
        self.bytes.as_slice()
    }
}

impl Sink for SureSink {
    ghost use Rattle.std.specs.Prelude.{true};
    ghost use Rattle.ev_outside.specs.Sure.{sure_output};

    ghost state = { sure_output };

    ghost takes_memory = { true };

    fn put(&mut self, bytes: &[u8]) -> Result<(), SinkFault>
        ensures bytes { OnOk result (Adds (Some self.old) (Some self.new) bytes.now) }
        ensures prefix { OnErr result (AddsPrefix (Some self.old) (Some self.new) bytes.now) }
        ensures never_failed { IsErrOf result SinkFault.Failed → ⊥ }
        ensures memory { IsErrOf result SinkFault.Memory → self.new ≡ self.old }
    {
        match self.bytes.extend_from_slice(bytes) {
            Ok(()) => Ok(()),
            Err(_) => Err(SinkFault::Memory),
        }
    }
}
