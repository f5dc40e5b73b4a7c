use crate::files::{CHARGED, assert_begins, certificate_with, run_on, run_with, shelf_with};
use command_line::usage;
use ev_outside::{Failure, MemoryShelf};
use evroute_run::Status;
use job_ending::Message;
use std::alloc::{AllocError, Global};
use std::io::Error;
use std::process::Abort;
use worked_instances::ONE_STATION;

/// The program ends and puts so where these calls of the files and of the output fail, or the test
/// fails.
fn assert_failing(
    rt: &impl Abort,
    alloc: Global,
    line: &str,
    instance: &str,
    failing: (Option<u64>, Option<u64>),
    status: Status,
    put: &str,
) {
    let (calls, puts) = (failing.0.as_slice(), failing.1.as_slice());
    let ended = run_on(alloc, line, instance, CHARGED, calls, puts).expect(rt, "memory");
    assert_eq!(rt; ended.0, status, "{line}");
    assert_eq!(rt; ended.1.as_slice(), put.as_bytes(), "{line}");
}

#[test]
fn a_failing_file_or_output_is_a_fault(rt: HostRuntime) {
    const WHOLE: &str = "convert A W --time-digits 0 --energy-digits 0";
    let alloc = rt.alloc();
    for &(line, instance, call, put, status, text) in &[
        (
            "fixed A 0,1,0",
            ONE_STATION,
            Some(0),
            None,
            Status::Fault,
            "",
        ),
        (
            "fixed A 0,1,0",
            ONE_STATION,
            None,
            Some(0),
            Status::Fault,
            "time 43/2\nat 0\nvia 2",
        ),
        ("check A P Q", ONE_STATION, Some(0), None, Status::Fault, ""),
        ("check A P Q", ONE_STATION, Some(1), None, Status::Fault, ""),
        ("check A P Q", ONE_STATION, Some(2), None, Status::Fault, ""),
        (
            "check A P Q",
            "{",
            Some(1),
            None,
            Status::Refused,
            "refused instance 2\n",
        ),
        (
            "check A P Q",
            ONE_STATION,
            None,
            Some(0),
            Status::Fault,
            "accepted\ncost 43/2\n",
        ),
        ("fleet A P Q", ONE_STATION, Some(0), None, Status::Fault, ""),
        (
            "fleet A P Q",
            "{",
            None,
            Some(0),
            Status::Fault,
            "refused i",
        ),
        (WHOLE, ONE_STATION, Some(0), None, Status::Fault, ""),
        (WHOLE, ONE_STATION, Some(1), None, Status::Fault, ""),
        (WHOLE, ONE_STATION, None, Some(0), Status::Done, ""),
        (WHOLE, "{", None, Some(0), Status::Fault, "refused lit"),
        ("make 1 1 0 W", "", Some(0), None, Status::Fault, ""),
        (
            "make 1 1 0 W",
            "",
            None,
            Some(0),
            Status::Fault,
            "nodes 2\ndenominator ",
        ),
    ] {
        assert_failing(&rt, alloc, line, instance, (call, put), status, text);
    }
    let half = &usage()[..usage().len() / 2];
    let failing = (None, Some(0));
    assert_failing(&rt, alloc, "check", "", failing, Status::Fault, half);
}

/// The files that `fleet` leaves where these calls of the files and of the output fail, which is a
/// fault once this is put, or the test fails.
fn failed_fleet(
    rt: &impl Abort,
    alloc: Global,
    failing: (&[u64], &[u64]),
    put: &str,
) -> MemoryShelf {
    let mut shelf = shelf_with(alloc, ONE_STATION, "before", failing.0).expect(rt, "memory");
    let ended = run_with(alloc, "fleet A P Q", &mut shelf, failing.1).expect(rt, "memory");
    assert_eq!(rt; ended.0, Status::Fault);
    assert_eq!(rt; ended.1.as_slice(), put.as_bytes());
    shelf
}

#[test]
fn a_fleet_whose_files_fail_leaves_what_was_there(rt: HostRuntime) {
    let alloc = rt.alloc();
    let before = certificate_with(alloc, "43").expect(&rt, "memory");
    let shelf = failed_fleet(&rt, alloc, (&[0], &[]), "");
    assert_begins(&rt, &shelf, "P", "before");
    assert_begins(&rt, &shelf, "Q", before.as_str());
    let shelf = failed_fleet(&rt, alloc, (&[1], &[]), "");
    assert_begins(&rt, &shelf, "Q", before.as_str());
}

#[test]
fn a_fleet_whose_certificate_or_report_fails_leaves_its_plan(rt: HostRuntime) {
    let alloc = rt.alloc();
    let shelf = failed_fleet(&rt, alloc, (&[2], &[]), "");
    assert_begins(&rt, &shelf, "P", CHARGED);
    let put = "cost 43/2\nbound 43/2\ng";
    let shelf = failed_fleet(&rt, alloc, (&[], &[0]), put);
    assert_begins(&rt, &shelf, "P", CHARGED);
    assert_begins(&rt, &shelf, "Q", "evroute certificate 1\nbound 43\n");
}

/// The text of a message, or that there is none.
fn text_of(alloc: Global, message: Option<Message<'_>>) -> Result<String, AllocError> {
    match message {
        Some(message) => message.to_string(alloc),
        None => String::from_str(alloc, "no message"),
    }
}

#[test]
fn a_message_names_the_cause(rt: HostRuntime) -> Result<(), AllocError> {
    let alloc = rt.alloc();
    let cause = Error::from_raw_os_error(2);
    let failure = Failure {
        name: "absent.json",
        cause,
        is_standard_error: false,
    };
    for (message, want) in [
        (
            Message::at(Status::Fault.code(), Some(failure)),
            "absent.json: No such file or directory (os error 2)",
        ),
        (
            Message::at(Status::Fault.code(), None),
            "a file or the output failed",
        ),
        (
            Message::at(Status::Memory.code(), Some(failure)),
            "out of memory",
        ),
        (
            Some(Message::Words(cause)),
            "the words can't be had: No such file or directory (os error 2)",
        ),
    ] {
        let text = text_of(alloc, message)?;
        assert_eq!(rt; text.as_str(), want);
    }
    Ok(())
}
