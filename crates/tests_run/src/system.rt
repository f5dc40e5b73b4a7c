use crate::files::words_of;
use ev_outside::{FileShelf, OutSink};
use evroute_run::{Evroute, Nobody};
use job_ending::{Diagnostics, Message, run_to_end};
use std::alloc::AllocError;
use std::io::{self, Error, ErrorKind};
use std::process::ExitCode;

/// What people are told, a line a message. It isn't kept where memory for it is refused.
#[derive(Drop)]
struct Heard {
    lines: String,
}

impl Diagnostics for Heard {
    ghost use Rattle.std.specs.Prelude.{None};

    ghost told = { λ _. None };

    fn tell(&mut self, message: Message<'_>) {
        let alloc = *self.lines.allocator();
        if let Ok(text) = format!(in alloc; "{message}\n") {
            let _ = self.lines.push_str(text.as_str());
        }
    }
}

/// How the program ends with these words over the files and the output of the system, and what
/// people are told.
fn run_on_system(rt: &HostRuntime, words: io::Result<Vec<String>>) -> (ExitCode, String) {
    let alloc = rt.alloc();
    let mut shelf = FileShelf::new(alloc, rt);
    let mut out = OutSink::new(rt);
    let mut people = Heard {
        lines: String::new(alloc),
    };
    let mut program = Evroute {
        watcher: Nobody::new(),
    };
    let end = run_to_end(
        alloc,
        &words,
        &mut shelf,
        &mut out,
        &mut people,
        &mut program,
    );
    (end.code, people.lines)
}

#[test]
fn a_failing_file_of_the_system_is_named(rt: HostRuntime) {
    let alloc = rt.alloc();
    for &(line, told) in &[
        (
            "fixed /nowhere/instance.json 0,1,0",
            "/nowhere/instance.json: No such file or directory (os error 2)\n",
        ),
        ("fixed / 0,1,0", "/: Is a directory (os error 21)\n"),
        (
            "convert /proc/sys/kernel/pid_max /dev/full --time-digits 0 --energy-digits 0",
            "/dev/full: No space left on device (os error 28)\n",
        ),
        ("make 1 1 0 /", "/: Is a directory (os error 21)\n"),
    ] {
        let words = words_of(alloc, line).expect(&rt, "memory");
        let ended = run_on_system(&rt, Ok(words));
        assert_eq!(rt; ended.0, ExitCode::from(4), "{line}");
        assert_eq!(rt; ended.1.as_str(), told);
    }
}

#[test]
fn words_that_cant_be_had_have_their_own_status(rt: HostRuntime) {
    let (code, told) = run_on_system(&rt, Err(Error::from(ErrorKind::InvalidData)));
    assert_eq!(rt; code, ExitCode::from(7));
    let want = "the words can't be had: invalid data\n";
    assert_eq!(rt; told.as_str(), want);
    let (code, told) = run_on_system(&rt, Err(Error::from(AllocError)));
    assert_eq!(rt; code, ExitCode::from(5));
    assert_eq!(rt; told.as_str(), "out of memory\n");
}
