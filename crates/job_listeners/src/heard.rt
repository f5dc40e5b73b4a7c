//! An output that remembers whether anything was put.

ghost use Rattle.std.specs.Prelude.{◌≡◌, ◌≤◌, ◌↔◌, IfSome, IsNone, OnErr, OnOk, IsErrOf, Some, true};
ghost use Rattle.ev_outside.specs.Counts.{Rose};
ghost use Rattle.ev_outside.specs.Sink.{Adds, AddsPrefix};
ghost use Rattle.job_ending.specs.Ending.{output_name};

use ev_outside::{Failure, Sink, SinkFault};
use job_ending::FailingSink;

/// An output that remembers whether anything was to be put.
#[derive(Drop)]
pub struct HeardSink<K: Sink + Drop> {
    out: K,
    has_put: bool,
}

impl<K: Sink + Drop> HeardSink<K> {
    /// Nothing was put yet.
    pub fn over(out: K) -> Self {
        HeardSink {
            out,
            has_put: false,
        }
    }

    /// Whether anything was to be put.
    pub fn has_put(&self) -> bool {
        self.has_put
    }
}

impl<K: Sink + Drop> Sink for HeardSink<K> {
    ghost state = { λ sink. K.state sink.out };

    ghost takes_memory = { K.takes_memory };

    fn put(&mut self, bytes: &[u8]) -> Result<(), SinkFault> {
        self.has_put = true;
        self.out.put(bytes)
    }
}

impl<K: FailingSink + Drop> FailingSink for HeardSink<K> {
    ghost cause = { λ sink. K.cause sink.out };

    fn last_failure(&self) -> Option<Failure<'_>> {
        self.out.last_failure()
    }
}
