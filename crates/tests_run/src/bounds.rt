//! Bounds by near routes: `bound`, and `check-bound` on what it writes and on other proofs.

use crate::files::{assert_file, assert_run, assert_run_on, run_with, shelf_with};
use command_line::usage;
use evroute_run::Status;
use std::alloc::Global;
use std::process::Abort;
use worked_instances::{DEPOT_ALONE, NO_STATION, ONE_STATION, THREE_CUSTOMERS, TWO_CUSTOMERS};

/// A proof that no fleet plan of the one customer without a station costs less than 8.
const EIGHT: &str =
    "evroute near 1\nbound 8\nsection 1 2\nprices 8\nnear 1\nlabel 0 - 0 0 10:0\nlabel 1 1 1 8 9:4\ntight 0 1 0\n";

/// A proof that two customers can't be served within a limit of 7.
const NONE: &str =
    "evroute near 1\nbound none\nsection 0 3\nprices 1 0\nnear 1,2\nnear 1,2\nlabel 0 - 0 0 10:0\nlabel 1 1 1 1 9:4\nlabel 2 2 1 0 9:4\n";

/// The judge ends and puts so on a proof of which a piece is another one, or the test fails.
fn assert_judged(
    rt: &impl Abort,
    alloc: Global,
    options: &str,
    proof: (&str, &str),
    pieces: (&str, &str),
    status: Status,
    put: &str,
) {
    let (instance, proof) = proof;
    let line = format!(in alloc; "check-bound A P{options}").expect(rt, "memory");
    let text = proof
        .replacen(alloc, pieces.0, pieces.1, 1)
        .expect(rt, "memory");
    let (line, text) = (line.as_str(), text.as_str());
    assert_run_on(rt, alloc, line, instance, text, status, put);
}

#[test]
fn proofs_of_a_bound_are_judged(rt: HostRuntime) {
    let alloc = rt.alloc();
    for &(options, pieces, status, put) in &[
        ("", ("", ""), Status::Done, "accepted\nbound 8/1\n"),
        (
            " --limit 8",
            ("", ""),
            Status::Done,
            "accepted\nbound 8/1\n",
        ),
        ("", ("10:0", "9:0"), Status::Negative, "rejected near 1\n"),
        (
            "",
            ("9:4", "8:4"),
            Status::Negative,
            "rejected near 2 label 0 node 1\n",
        ),
        (
            "",
            ("1 8 9:4", "1 9 9:4"),
            Status::Negative,
            "rejected near 3 label 1\n",
        ),
        (
            "",
            ("bound 8", "bound 9"),
            Status::Negative,
            "rejected near 4\n",
        ),
        (
            "",
            ("tight 0 1 0", "tight 0"),
            Status::Negative,
            "rejected near 5 customer 1\n",
        ),
        (
            " --limit 7",
            ("", ""),
            Status::Negative,
            "rejected near 5 customer 1\n",
        ),
        (
            "",
            ("near 1\nbound", "near 2\nbound"),
            Status::Refused,
            "refused certificate 3\n",
        ),
        (
            "",
            ("near 1\nlabel", "near -\nlabel"),
            Status::Refused,
            "refused certificate 2 at 49\n",
        ),
        (
            " --limit 1000000000000000000",
            ("evroute", ""),
            Status::Refused,
            "refused certificate 1 at 0\n",
        ),
    ] {
        assert_judged(
            &rt,
            alloc,
            options,
            (NO_STATION, EIGHT),
            pieces,
            status,
            put,
        );
    }
}

#[test]
fn proofs_are_of_one_instance_and_one_limit(rt: HostRuntime) {
    let alloc = rt.alloc();
    for &(options, proof, status, put) in &[
        (
            "",
            (TWO_CUSTOMERS, EIGHT),
            Status::Refused,
            "refused certificate 1 at 43\n",
        ),
        (
            "",
            (ONE_STATION, EIGHT),
            Status::Negative,
            "rejected near 2 label 0 node 2\n",
        ),
        (
            " --limit 7",
            (TWO_CUSTOMERS, NONE),
            Status::Done,
            "accepted\nbound none\n",
        ),
        (
            "",
            (TWO_CUSTOMERS, NONE),
            Status::Negative,
            "rejected near 2 label 1 node 2\n",
        ),
    ] {
        assert_judged(&rt, alloc, options, proof, ("", ""), status, put);
    }
}

/// With this limit `bound` ends and puts so, and `check-bound` then puts what is told, or the test
/// fails.
fn assert_both(
    rt: &impl Abort,
    alloc: Global,
    instance: &str,
    words: (&str, &str),
    status: Status,
    texts: (&str, &str),
) {
    let ((near, limit), (put, told)) = (words, texts);
    let mut shelf = shelf_with(alloc, instance, "", &[]).expect(rt, "memory");
    let bound = format!(in alloc; "bound A O --near {near}{limit}").expect(rt, "memory");
    assert_run(rt, alloc, bound.as_str(), &mut shelf, status, put);
    let judge = format!(in alloc; "check-bound A O{limit}").expect(rt, "memory");
    assert_run(rt, alloc, judge.as_str(), &mut shelf, Status::Done, told);
}

#[test]
fn bounds_are_found_and_accepted(rt: HostRuntime) {
    for &(instance, words, status, texts) in &[
        (
            THREE_CUSTOMERS,
            ("2", ""),
            Status::Done,
            ("bound 14/1\n", "accepted\nbound 14/1\n"),
        ),
        (
            THREE_CUSTOMERS,
            ("2", " --limit 11"),
            Status::Done,
            ("bound 14/1\n", "accepted\nbound 14/1\n"),
        ),
        (
            THREE_CUSTOMERS,
            ("0", ""),
            Status::Done,
            ("bound 7/1\n", "accepted\nbound 7/1\n"),
        ),
        (
            TWO_CUSTOMERS,
            ("1", " --limit 7"),
            Status::Negative,
            ("infeasible\n", "accepted\nbound none\n"),
        ),
        (
            ONE_STATION,
            ("1000000000", ""),
            Status::Done,
            ("bound 43/2\n", "accepted\nbound 43/2\n"),
        ),
        (
            DEPOT_ALONE,
            ("0", ""),
            Status::Done,
            ("bound 0/1\n", "accepted\nbound 0/1\n"),
        ),
    ] {
        assert_both(&rt, rt.alloc(), instance, words, status, texts);
    }
}

#[test]
fn a_bound_for_one_limit_may_be_none_for_another(rt: HostRuntime) {
    let alloc = rt.alloc();
    let mut shelf = shelf_with(alloc, TWO_CUSTOMERS, "", &[]).expect(&rt, "memory");
    let bounded = run_with(alloc, "bound A O --near 1 --limit 7", &mut shelf, &[]);
    assert_eq!(rt; bounded.expect(&rt, "memory").0, Status::Negative);
    let judged = run_with(alloc, "check-bound A O", &mut shelf, &[]);
    assert_eq!(rt; judged.expect(&rt, "memory").0, Status::Negative);
}

#[test]
fn a_bound_is_written_only_where_it_stands(rt: HostRuntime) {
    let alloc = rt.alloc();
    for &(line, status, put) in &[
        (
            "bound A O --near 1 --limit 500000000000000001",
            Status::Refused,
            "refused limit 500000000000000001\n",
        ),
        ("bound B O --near 1", Status::Fault, ""),
    ] {
        let shelf = assert_run_on(&rt, alloc, line, ONE_STATION, "", status, put);
        assert_file(&rt, &shelf, "O", None);
    }
    let mut shelf = shelf_with(alloc, ONE_STATION, "", &[1]).expect(&rt, "memory");
    assert_run(
        &rt,
        alloc,
        "bound A O --near 1",
        &mut shelf,
        Status::Fault,
        "",
    );
    assert_file(&rt, &shelf, "O", None);
}

#[test]
fn without_the_words_of_a_bound_no_bound_is_written(rt: HostRuntime) {
    for &line in &[
        "bound A O",
        "bound A O --near 1000000001",
        "bound A A --near 1",
    ] {
        let (status, put) = (Status::Words, usage());
        let shelf = assert_run_on(&rt, rt.alloc(), line, ONE_STATION, "", status, put);
        assert_file(&rt, &shelf, "O", None);
    }
}
