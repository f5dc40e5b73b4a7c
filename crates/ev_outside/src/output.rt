//! The output of a system.
ghost use Rattle.std.specs.Prelude.{◌≡◌, ◌≤◌, OnOk, OnErr, IsErrOf};
ghost use Rattle.ev_outside.specs.Counts.{CountsOne, Rose};
ghost use Rattle.ev_outside.specs.Sink.{Adds, AddsPrefix};

use super::sink::{Sink, SinkFault};
use super::storage::Stream;
use super::streams::write_whole;
use super::system::SystemOutput;
use std::io::Print;

/// A stream as a sink. All bytes are written, once and in order. No memory.
#[derive(Drop)]
pub struct StreamSink<S: Stream> {
    stream: S,
}

/// The standard output of the system as a sink.
pub type OutSink<'a, R> = StreamSink<SystemOutput<'a, R>>;

impl<'a, R: Print> StreamSink<SystemOutput<'a, R>> {
    /// The standard output of the runtime. No call has failed yet. No memory.
    pub fn new(rt: &'a R) -> Self
        ensures failed { result.stream.failed ≡ 0 }
    {
        StreamSink::over(SystemOutput::new(rt))
    }
}

impl<S: Stream> StreamSink<S> {
    /// The output that goes to the stream.
    pub fn over(stream: S) -> Self
        ensures { result.stream ≡ stream }
    {
        StreamSink { stream }
    }

    /// The stream.
    pub fn stream(&self) -> &S
        ensures { result.now ≡ self.now.stream }
    {
        &self.stream
    }
}

impl<S: Stream> Sink for StreamSink<S> {
    ghost use Rattle.std.specs.Prelude.{false};

    ghost takes_memory = { false };

    ghost state = { λ sink. record {
      written = S.written sink.stream;
      faults = S.failed sink.stream;
    } };

    fn put(&mut self, bytes: &[u8]) -> Result<(), SinkFault>
        ensures bytes { OnOk result
            (Adds (S.written self.old.stream) (S.written self.new.stream) bytes.now) }
        ensures prefix { OnErr result
            (AddsPrefix (S.written self.old.stream) (S.written self.new.stream) bytes.now) }
        ensures failed { IsErrOf result SinkFault.Failed →
            Rose (S.failed self.old.stream) (S.failed self.new.stream) }
        ensures falls { S.failed self.old.stream ≤ S.failed self.new.stream }
        ensures stays { (IsErrOf result SinkFault.Failed → ⊥) →
            S.failed self.new.stream ≡ S.failed self.old.stream }

        // `Failed` comes exactly where a call of the stream failed.
        ensures counted { IsErrOf result SinkFault.Failed →
            CountsOne (S.failed self.old.stream) (S.failed self.new.stream) }
        ensures never_memory { IsErrOf result SinkFault.Memory → ⊥ }
    {
        write_whole(&mut self.stream, bytes)?;
        Ok(())
    }
}
