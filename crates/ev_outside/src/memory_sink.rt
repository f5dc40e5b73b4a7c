//! An output in memory, for tests.
ghost use Rattle.std.specs.Prelude.{◌≡◌, ◌≤◌, ℕ, List, [], Option, Some, OnOk, OnErr, IsErrOf};
ghost use Rattle.ev_outside.specs.Counts.{Rose};
ghost use Rattle.ev_outside.specs.Sink.{Adds, AddsPrefix};
ghost use Rattle.ev_outside.specs.MemorySink.{MemoryOutput, IsNextToFail, after_fault, after_put};

use super::sink::{Sink, SinkFault};
use std::alloc::Global;
use std::marker::Model;

/// An output in memory that keeps what was put and fails where it is told to.
///
/// Its calls of `put` are numbered from 0; one that was refused memory isn't counted. The count of
/// calls and that of faults stop at their last value, 2^64 - 1.
#[derive(Drop)]
pub struct MemorySink {
    bytes: Vec<u8>,
    calls: u64,
    faults: u64,
    fails: Vec<u64>,
}

impl Model for MemorySink {
    ghost use Rattle.ev_outside.specs.MemorySink.{MemoryOutput};
    ghost use Rattle.std.specs.Prelude.{◌≤◌, ◌-◌, ◌^◌};

    ghost Value = { MemoryOutput };

    ghost view = { λ sink.
        record {
          bytes = sink.bytes.items;
          calls = sink.calls;
          faults = sink.faults;
          fails = sink.fails.items;
        } };
}

impl MemorySink {
    /// An empty output whose calls with the numbers in `fails` will fail.
    pub fn new(alloc: Global, fails: Vec<u64>) -> MemorySink
        ensures { result ≡ record { bytes = []; calls = 0; faults = 0; fails = fails.items } }
    {
        MemorySink {
            bytes: Vec::new(alloc),
            calls: 0,
            faults: 0,
            fails,
        }
    }

    /// What was written.
    pub fn bytes(&self) -> &[u8]
        ensures { result.now ≡ self.now.bytes }
    {
        self.bytes.as_slice()
    }
}

impl Sink for MemorySink {
    ghost use Rattle.std.specs.Prelude.{true};

    ghost takes_memory = { true };

    ghost state = { λ sink. record { written = Some sink.bytes; faults = sink.faults } };

    /// Keeps the bytes. A call that is to fail keeps the first half of them, rounded down.
    fn put(&mut self, bytes: &[u8]) -> Result<(), SinkFault>
        ensures bytes { OnOk result (Adds (Some self.old.bytes) (Some self.new.bytes) bytes.now) }
        ensures prefix { OnErr result
            (AddsPrefix (Some self.old.bytes) (Some self.new.bytes) bytes.now) }
        ensures failed { IsErrOf result SinkFault.Failed → Rose self.old.faults self.new.faults }
        ensures falls { self.old.faults ≤ self.new.faults }
        ensures stays { (IsErrOf result SinkFault.Failed → ⊥) → self.new.faults ≡ self.old.faults }

        // Exactly what this sink does.
        ensures kept { OnOk result
            ((IsNextToFail self.old → ⊥) × (self.new ≡ after_put bytes.now self.old)) }
        ensures halved { IsErrOf result SinkFault.Failed
            → IsNextToFail self.old × (self.new ≡ after_fault bytes.now self.old) }
        ensures memory { IsErrOf result SinkFault.Memory → self.new ≡ self.old }
    {
        let fails = self.fails.contains(&self.calls);
        let kept = if fails {
            &bytes[..bytes.len() / 2]
        } else {
            bytes
        };
        if self.bytes.extend_from_slice(kept).is_err() {
            return Err(SinkFault::Memory);
        }
        self.calls = self.calls.saturating_add(1);
        if fails {
            self.faults = self.faults.saturating_add(1);
            return Err(SinkFault::Failed);
        }
        Ok(())
    }
}
