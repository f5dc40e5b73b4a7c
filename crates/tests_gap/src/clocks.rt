//! What the clock of a search is begun with, and what is told of it.

ghost use Rattle.std.specs.Prelude.{true};

use crate::files::{shelf_with, words_of};
use crate::recreated::Looks;
use ev_outside::MemorySink;
use evgap_run::{
    AtOnce, BranchClock, Cause, Evgap, GapClock, JobClock, MoveClock, Never, Nobody, SearchClock,
};
use std::alloc::Global;
use worked_instances::ONE_STATION;

/// A clock that keeps what it was begun with, where it was, and is up at once.
#[derive(Drop)]
struct Noting {
    begun: Option<Option<u64>>,
}

impl SearchClock for Noting {
    fn is_up(&mut self) -> bool {
        true
    }
}

impl BranchClock for Noting {
    fn is_up_in(&mut self, _milliseconds: u64) -> bool {
        true
    }
}

impl MoveClock for Noting {
    ghost has_ended = { λ _. true };

    fn is_over(&mut self) -> bool {
        true
    }

    fn has_ended(&self) -> bool {
        true
    }
}

impl GapClock for Noting {
    fn is_up_since(&mut self, _milliseconds: u64) -> bool {
        true
    }
}

impl JobClock for Noting {
    fn begin(&mut self, seconds: Option<u64>) {
        self.begun = Some(seconds);
    }
}

/// What the clock was begun with by the words of a line; the outer `None` also where memory was
/// refused.
fn begun_by(alloc: Global, line: &str) -> Option<Option<u64>> {
    let mut shelf = shelf_with(alloc, ONE_STATION, "", "", &[]).ok()?;
    let words = words_of(alloc, line).ok()?;
    let mut out = MemorySink::new(alloc, Vec::new(alloc));
    let mut program = Evgap {
        clock: Noting { begun: None },
        watcher: Nobody::new(),
    };
    let _ = job_ending::run(alloc, words.as_slice(), &mut shelf, &mut out, &mut program);
    program.clock.begun
}

#[test]
fn the_clock_is_begun_with_the_seconds_of_the_words(rt: HostRuntime) {
    let alloc = rt.alloc();
    for &(line, want) in &[
        ("plan A O C --seconds 7", Some(Some(7))),
        ("plan A O C --seconds 0", Some(Some(0))),
        ("plan A O C", Some(None)),
        ("check A P Q", None),
    ] {
        assert_eq!(rt; begun_by(alloc, line), want, "{line}");
    }
}

/// What is heard of the words of a line beside a clock; the outer `None` where memory was refused.
fn heard_beside<C: JobClock + Drop>(alloc: Global, line: &str, clock: C) -> Option<Option<Cause>> {
    let mut shelf = shelf_with(alloc, ONE_STATION, "", "", &[]).ok()?;
    let words = words_of(alloc, line).ok()?;
    let mut out = MemorySink::new(alloc, Vec::new(alloc));
    let mut program = Evgap {
        clock,
        watcher: Looks::new(),
    };
    let _ = job_ending::run(alloc, words.as_slice(), &mut shelf, &mut out, &mut program);
    Some(program.watcher.cause)
}

#[test]
fn it_is_told_where_the_clock_of_the_words_ended_the_moves(rt: HostRuntime) {
    let alloc = rt.alloc();
    for &(line, at_once) in &[
        ("plan A O C --seconds 0", Some(Cause::MovesEnded)),
        ("plan A O C", None),
    ] {
        assert_eq!(rt;
            heard_beside(alloc, line, AtOnce {}),
            Some(at_once),
            "{line}"
        );
        assert_eq!(rt; heard_beside(alloc, line, Never {}), Some(None), "{line}");
    }
}
