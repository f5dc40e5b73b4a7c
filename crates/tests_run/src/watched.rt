//! How far a long job is, told over a clock that goes on each time it is read.

use crate::files::{shelf_with, words_of};
use ev_outside::MemorySink;
use evroute_run::{
    Evroute, MoveProgress, MoveWatcher, Progress, RisingProgress, RoundProgress, RoundWatcher,
    ScaleWatcher, Status, Watcher,
};
use evroute_words::ToldProgress;
use job_ending::run;
use job_listeners::wants_progress;
use std::alloc::{AllocError, Global};
use std::cell::Cell;
use std::env::FillError;
use std::fmt::Display;
use std::io::{self, Eprint, Error, ErrorKind};
use std::process::Abort;
use std::rt::{Clock, Env, Files};
use std::time::Duration;
use worked_instances::{ONE_STATION, THREE_CUSTOMERS};

/// A clock that goes on by some milliseconds each time it is read, or fails; and a standard error
/// that keeps its lines, each behind the milliseconds that the clock showed.
#[derive(Drop)]
pub struct Desk {
    alloc: Global,
    step: Option<u64>,
    now: Cell<u64>,
    told: Cell<String>,
}

impl Desk {
    pub fn new(alloc: Global, step: Option<u64>) -> Self {
        Desk {
            alloc,
            step,
            now: Cell::new(0),
            told: Cell::new(String::new(alloc)),
        }
    }

    /// What was told, which is kept no longer.
    fn told(&self) -> String {
        self.told.replace(String::new(self.alloc))
    }
}

impl Clock for Desk {
    fn monotonic(&self) -> io::Result<Duration> {
        match self.step {
            Some(step) => {
                let now = self.now.get().saturating_add(step);
                self.now.set(now);
                Ok(Duration::from_millis(now))
            }
            None => Err(Error::from(ErrorKind::Unsupported)),
        }
    }

    fn since_1970(&self) -> io::Result<Duration> {
        Err(Error::from(ErrorKind::Unsupported))
    }
}

impl Eprint for Desk {
    fn eprint<D: Display + Drop>(&self, value: D) -> io::Result<()> {
        self.eprintln(value)
    }

    fn eprintln<D: Display + Drop>(&self, value: D) -> io::Result<()> {
        let mut told = self.told();
        let line = format!(in self.alloc; "{} ms: {value}\n", self.now.get())?;
        told.push_str(line.as_str())?;
        self.told.set(told);
        Ok(())
    }
}

#[test]
fn the_first_line_comes_after_three_seconds_and_then_one_a_second(rt: HostRuntime) {
    let desk = Desk::new(rt.alloc(), Some(300));
    let mut progress = ToldProgress::new(rt.alloc(), &desk, &rt, true);
    for moves in 0..25 {
        progress.watch_moves(MoveProgress { moves, cost: 7 });
    }
    let want = "3300 ms: evroute: moves 9, cost 7/1\n\
        4500 ms: evroute: moves 13, cost 7/1\n\
        5700 ms: evroute: moves 17, cost 7/1\n\
        6900 ms: evroute: moves 21, cost 7/1\n";
    assert_eq!(rt; desk.told().as_str(), want);
}

#[test]
fn a_search_is_told_with_its_bound_and_its_gap(rt: HostRuntime) {
    let desk = Desk::new(rt.alloc(), Some(4000));
    for &(bound, cost, want) in &[
        (None, None, ", no plan held"),
        (Some(17), None, ", bound 17/1, no plan held"),
        (
            Some(17),
            Some(19),
            ", bound 17/1, plan held 19/1, gap 11.77 %",
        ),
        (
            Some(19),
            Some(17),
            ", bound 17/1, plan held 17/1, gap 0.00 %",
        ),
        (None, Some(17), ", bound 17/1, plan held 17/1, gap 0.00 %"),
        (Some(0), Some(0), ", bound 0/1, plan held 0/1"),
    ] {
        let mut progress = ToldProgress::new(rt.alloc(), &desk, &rt, true);
        progress.watch(Progress {
            nodes: 5,
            open_nodes: 2,
            bound,
            cost,
        });
        let told = desk.told();
        assert!(rt; told.contains(": evroute: nodes 5, open 2,"));
        assert!(rt; told.trim_end().ends_with(want), "{told}");
    }
}

#[test]
fn rounds_and_rising_prices_are_told(rt: HostRuntime) {
    let desk = Desk::new(rt.alloc(), Some(4000));
    let mut progress = ToldProgress::new(rt.alloc(), &desk, &rt, true);
    progress.begin(10);
    for cost in [None, Some(17)] {
        progress.watch_rounds(RoundProgress {
            rounds: 2,
            routes: 5,
            cost,
        });
    }
    progress.watch_rising(RisingProgress {
        customers: 3,
        fixed: 1,
        bound: 8,
    });
    let want = "8000 ms: evroute: rounds 2, routes 5, no fractional cover\n\
        12000 ms: evroute: rounds 2, routes 5, fractional cost 17/10\n\
        16000 ms: evroute: prices 1 of 3, bound 8/10\n";
    assert_eq!(rt; desk.told().as_str(), want);
}

/// How the program ends where it is watched, what it puts, what it leaves in the files `P`, `Q` and
/// `O`, and what people are told.
#[derive(Drop)]
struct Ended {
    status: Status,
    put: Vec<u8>,
    left: Vec<u8>,
    told: String,
}

/// A job on an instance, which is the file `A`.
#[derive(Clone, Copy)]
struct OnInstance<'a> {
    instance: &'a str,
    line: &'a str,
}

/// The program over the job's instance and no plan, and over a clock with this step.
fn watched<F: Files>(
    alloc: Global,
    files: &F,
    job: OnInstance<'_>,
    step: Option<u64>,
    is_wanted: bool,
) -> Result<Ended, AllocError> {
    let none = "evroute plan 1\nnone\n";
    let mut shelf = shelf_with(alloc, job.instance, none, &[])?;
    let mut out = MemorySink::new(alloc, Vec::new(alloc));
    let words = words_of(alloc, job.line)?;
    let desk = Desk::new(alloc, step);
    let mut program = Evroute {
        watcher: ToldProgress::new(alloc, &desk, files, is_wanted),
    };
    let status = run(alloc, words.as_slice(), &mut shelf, &mut out, &mut program);
    let mut left = Vec::new(alloc);
    for &name in &["P", "Q", "O"] {
        left.extend_from_slice(shelf.get(name).unwrap_or(b"".as_slice()))?;
    }
    Ok(Ended {
        status,
        put: Vec::from_slice(alloc, out.bytes())?,
        left,
        told: desk.told(),
    })
}

/// What is told of a job over a clock with this step. It ends, puts and leaves the same as the
/// quick one, or the test fails.
fn told_beside<R: Abort + Files>(
    rt: &R,
    alloc: Global,
    job: OnInstance<'_>,
    quick: &Ended,
    step: Option<u64>,
    is_wanted: bool,
) -> String {
    let line = job.line;
    let other = watched(alloc, rt, job, step, is_wanted).expect(rt, "memory");
    assert_eq!(rt; other.status, quick.status, "{line}");
    assert_eq!(rt; other.put.as_slice(), quick.put.as_slice(), "{line}");
    assert_eq!(rt; other.left.as_slice(), quick.left.as_slice(), "{line}");
    other.told
}

/// A job is told so where it is slow, and else not, or the test fails.
fn assert_watched<R: Abort + Files>(rt: &R, alloc: Global, job: OnInstance<'_>, want: &str) {
    let line = job.line;
    let quick = watched(alloc, rt, job, Some(0), true).expect(rt, "memory");
    assert_eq!(rt; quick.status, Status::Done, "{line}");
    assert_eq!(rt; quick.told.as_str(), "", "{line}");
    let told = told_beside(rt, alloc, job, &quick, Some(4000), true);
    assert!(rt; told.as_str().starts_with(want), "{told}");
    for &(step, is_wanted) in &[(Some(4000), false), (None, true)] {
        let told = told_beside(rt, alloc, job, &quick, step, is_wanted);
        assert_eq!(rt; told.as_str(), "", "{line}");
    }
}

#[test]
fn a_watched_job_ends_as_any(rt: HostRuntime) {
    for &(line, want) in &[
        (
            "fleet A P Q --limit 11",
            "8000 ms: evroute: nodes 1, open 2, bound 17/1, plan held 19/1, gap 11.77 %\n",
        ),
        (
            "bound A O --near 2 --limit 11",
            "8000 ms: evroute: prices 1 of 3, bound 8/1\n",
        ),
        (
            "improve A P O --limit 11",
            "8000 ms: evroute: moves 0, cost 24/1\n",
        ),
        (
            "mixed P Q A --limit 11",
            "8000 ms: evroute: rounds 0, routes 3, fractional cost 24/1\n",
        ),
    ] {
        let instance = THREE_CUSTOMERS;
        assert_watched(&rt, rt.alloc(), OnInstance { instance, line }, want);
    }
}

#[test]
fn costs_are_told_over_the_denominator_of_the_instance(rt: HostRuntime) {
    for &(line, want) in &[
        (
            "fleet A P Q",
            "8000 ms: evroute: nodes 1, open 0, bound 43/2, plan held 43/2, gap 0.00 %\n",
        ),
        (
            "bound A O --near 1",
            "8000 ms: evroute: prices 1 of 1, bound 43/2\n",
        ),
        ("improve A P O", "8000 ms: evroute: moves 0, cost 43/2\n"),
        (
            "mixed P Q A",
            "8000 ms: evroute: rounds 0, routes 1, fractional cost 43/2\n",
        ),
    ] {
        let instance = ONE_STATION;
        assert_watched(&rt, rt.alloc(), OnInstance { instance, line }, want);
    }
}

/// An environment in which one variable has a value.
#[derive(Drop)]
struct OneVariable<'a> {
    name: &'a str,
    value: &'a str,
}

impl<'a> Env for OneVariable<'a> {
    fn arg(&self, _i: usize, _buf: &mut [u8]) -> Result<usize, FillError> {
        Err(FillError::NotPresent)
    }

    fn var(&self, name: &str, buf: &mut [u8]) -> Result<usize, FillError> {
        if name != self.name {
            return Err(FillError::NotPresent);
        }
        let value = self.value.as_bytes();
        match buf.get_mut(..value.len()) {
            Some(part) => {
                part.copy_from_slice(value);
                Ok(value.len())
            }
            None => Err(FillError::TooLong),
        }
    }

    fn var_at(&self, _i: usize, _buf: &mut [u8]) -> Result<usize, FillError> {
        Err(FillError::NotPresent)
    }
}

#[test]
fn a_variable_tells_that_nobody_wants_to_be_told(rt: HostRuntime) {
    for &(name, value, want) in &[
        ("EVROUTE_PROGRESS", "0", false),
        ("EVROUTE_PROGRESS", "1", true),
        ("EVROUTE_PROGRESS", "", true),
        ("PROGRESS", "0", true),
    ] {
        let env = (OneVariable { name, value }, rt.alloc());
        assert_eq!(rt; wants_progress(&env), want, "{name}={value}");
    }
}
