//! Outputs, over the calls of the system and in memory.

use ev_outside::{OutSink, Sink, SinkFault, SureSink};
use std::cell::Cell;
use std::fmt::Display;
use std::io::{self, Error, ErrorKind, Print};
use std::process::Abort;

/// Puts by the trait alone.
fn put_into<K: Sink>(sink: &mut K, bytes: &[u8]) -> Result<(), SinkFault> {
    sink.put(bytes)
}

/// An output that takes at most `most` bytes at a time, whose first calls are interrupted, and that
/// fails at one of its calls.
#[derive(Drop)]
struct NarrowOutput {
    most: usize,
    interrupts: u64,
    fails: u64,
    calls: Cell<u64>,
    taken: Cell<usize>,
}

impl Print for NarrowOutput {
    fn print<D: Display + Drop>(&self, _value: D) -> io::Result<()> {
        Err(Error::other("no text is taken"))
    }

    fn println<D: Display + Drop>(&self, _value: D) -> io::Result<()> {
        Err(Error::other("no text is taken"))
    }

    fn write_all(&self, _bytes: &[u8]) -> io::Result<()> {
        Err(Error::other("no bytes are taken whole"))
    }

    fn write_some(&self, bytes: &[u8]) -> io::Result<usize> {
        let call = self.calls.get();
        self.calls.set(call.saturating_add(1));
        if call < self.interrupts {
            return Err(Error::from(ErrorKind::Interrupted));
        }
        if call == self.fails {
            return Err(Error::other("the call fails"));
        }
        let taken = bytes.len().min(self.most);
        self.taken.set(self.taken.get().saturating_add(taken));
        Ok(taken)
    }
}

/// Five bytes are put so into an output that takes at most `most` at a time, is interrupted at its
/// first calls and fails at one, and it took this many, or the test fails.
fn assert_put(
    rt: &impl Abort,
    most: usize,
    interrupts: u64,
    fails: u64,
    wanted: Result<(), SinkFault>,
    taken: usize,
) {
    let output = NarrowOutput {
        most,
        interrupts,
        fails,
        calls: Cell::new(0),
        taken: Cell::new(0),
    };
    let mut out = OutSink::new(&output);
    assert_eq!(rt; put_into(&mut out, b"five!"), wanted, "{most} at a time");
    assert_eq!(rt; output.taken.get(), taken, "{most} at a time");
    assert_eq!(rt; out.stream().last_failure().is_some(), wanted.is_err());
}

/// The output counts what was taken, and not what was asked. A call that is interrupted is made
/// again, but not without end.
#[test]
fn a_narrow_output_takes_all_bytes_or_has_failed(rt: HostRuntime) {
    for &(most, interrupts, fails, wanted, taken) in &[
        (2, 0, 9, Ok(()), 5),
        (9, 0, 9, Ok(()), 5),
        (2, 0, 1, Err(SinkFault::Failed), 2),
        (0, 0, 9, Err(SinkFault::Failed), 0),
        (2, 3, 9, Ok(()), 5),
        (2, 3, 4, Err(SinkFault::Failed), 2),
        (2, 5000, 9999, Err(SinkFault::Failed), 0),
    ] {
        assert_put(&rt, most, interrupts, fails, wanted, taken);
    }
}

#[test]
fn the_output_takes_what_is_put(rt: HostRuntime) {
    let mut out = OutSink::new(&rt);
    put_into(&mut out, b"the output takes this line\n").expect(&rt, "a put");
    put_into(&mut out, b"").expect(&rt, "a put");
    assert!(rt; out.stream().last_failure().is_none());
}

#[test]
fn a_sure_output_never_fails(rt: HostRuntime) {
    let alloc = rt.alloc();
    let mut sink = SureSink::new(alloc);
    put_into(&mut sink, b"two ").expect(&rt, "a put");
    put_into(&mut sink, b"texts").expect(&rt, "a put");
    assert_eq!(rt; sink.bytes(), b"two texts".as_slice());
}
