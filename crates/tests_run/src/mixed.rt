//! Fleets of several kinds of vehicles: `mixed`, and `check-mixed` on what it writes and on other
//! plans and proofs.

use crate::files::{assert_begins, assert_file, assert_run, run_with, words_of};
use command_line::{Job, job_words};
use ev_outside::MemoryShelf;
use evroute_run::Status;
use evroute_words::names_of;
use plain_words::{JobNames, broken_json};
use proof_words::out_of_reach;
use std::alloc::{AllocError, Global};
use std::process::Abort;
use worked_instances::{ONE_STATION, THREE_CUSTOMERS, TWO_CUSTOMERS};

/// A plan with both kinds of vehicles.
const BOTH: &str = "evroute mixed plan 1\nroutes 2\nkind 1 route 0 1 0\nkind 0 route 0 2 0\n";

/// Files in memory, of which the calls with these numbers fail: two customers in `A`, with other
/// times in `B`, with energies that no battery lasts for in `U` and `U2`; three customers in `C`,
/// a station and the denominator 2 in `S`, and no JSON in `X`.
fn shelf_of_kinds(alloc: Global, failing: &[u64]) -> Result<MemoryShelf, AllocError> {
    let times = TWO_CUSTOMERS.replacen(
        alloc,
        "[[0,4,4],[4,0,5],[4,5,0]]",
        "[[0,3,6],[3,0,5],[6,5,0]]",
        1,
    )?;
    let far = TWO_CUSTOMERS.replacen(
        alloc,
        "[[0,1,1],[1,0,1],[1,1,0]]",
        "[[0,9,9],[9,0,9],[9,9,0]]",
        1,
    )?;
    let mut shelf = MemoryShelf::new(alloc, Vec::from_slice(alloc, failing)?);
    shelf.set("A", TWO_CUSTOMERS.as_bytes())?;
    shelf.set("B", times.as_bytes())?;
    shelf.set("U", far.as_bytes())?;
    shelf.set("U2", far.as_bytes())?;
    shelf.set("C", THREE_CUSTOMERS.as_bytes())?;
    shelf.set("S", ONE_STATION.as_bytes())?;
    shelf.set("X", b"{")?;
    Ok(shelf)
}

/// `mixed` ends and puts so on these files, and `check-mixed` then puts what is told of what it
/// writes, or the test fails.
fn assert_both(
    rt: &impl Abort,
    alloc: Global,
    shelf: &mut MemoryShelf,
    files: &str,
    status: Status,
    texts: (&str, &str),
) {
    let (put, told) = texts;
    let plan = format!(in alloc; "mixed P Q {files}").expect(rt, "memory");
    assert_run(rt, alloc, plan.as_str(), shelf, status, put);
    let judge = format!(in alloc; "check-mixed P Q {files}").expect(rt, "memory");
    assert_run(rt, alloc, judge.as_str(), shelf, Status::Done, told);
}

#[test]
fn kinds_are_planned_together_and_accepted(rt: HostRuntime) {
    let alloc = rt.alloc();
    for &(files, texts, plan) in &[
        (
            "A B",
            (
                "cost 13/1\nbound 13/1\ngap 0/1\nroot exact 13/1\n",
                "accepted\ncost 13/1\nbound 13/1\ngap 0/1\n",
            ),
            "evroute mixed plan 1\nroutes 1\nkind 0 route 0 ",
        ),
        (
            "A B --limit 12",
            (
                "cost 14/1\nbound 14/1\ngap 0/1\nroot exact 14/1\n",
                "accepted\ncost 14/1\nbound 14/1\ngap 0/1\n",
            ),
            "evroute mixed plan 1\nroutes 2\nkind 1 route 0 1 0\nkind 0 route 0 2 0\n",
        ),
        (
            "U A B",
            (
                "cost 13/1\nbound 13/1\ngap 0/1\nroot exact 13/1\n",
                "accepted\ncost 13/1\nbound 13/1\ngap 0/1\n",
            ),
            "evroute mixed plan 1\nroutes 1\nkind 1 route 0 ",
        ),
        (
            "S",
            (
                "cost 43/2\nbound 43/2\ngap 0/2\nroot exact 43/2\n",
                "accepted\ncost 43/2\nbound 43/2\ngap 0/2\n",
            ),
            "evroute mixed plan 1\nroutes 1\nkind 0 route 0 v2+1 1 0\n",
        ),
    ] {
        let mut shelf = shelf_of_kinds(alloc, &[]).expect(&rt, "memory");
        assert_both(&rt, alloc, &mut shelf, files, Status::Done, texts);
        assert_begins(&rt, &shelf, "P", plan);
    }
}

#[test]
fn no_plan_of_any_kind_is_shown(rt: HostRuntime) {
    let alloc = rt.alloc();
    for &files in &["A B --limit 7", "U", "U U2 --limit 5"] {
        let mut shelf = shelf_of_kinds(alloc, &[]).expect(&rt, "memory");
        let texts = (
            "infeasible\n",
            "accepted\ncost none\nbound none\ngap none\n",
        );
        assert_both(&rt, alloc, &mut shelf, files, Status::Negative, texts);
        assert_file(&rt, &shelf, "P", Some("evroute mixed plan 1\nnone\n"));
    }
}

#[test]
fn files_that_break_a_rule_are_refused_in_their_order(rt: HostRuntime) {
    let alloc = rt.alloc();
    for &(line, status, put) in &[
        ("mixed P Q A C", Status::Refused, "refused kinds 1\n"),
        ("mixed P Q A B S C", Status::Refused, "refused kinds 2\n"),
        ("mixed P Q A X C", Status::Refused, "refused instance 2\n"),
        (
            "mixed P Q A S --limit 500000000000000001",
            Status::Refused,
            "refused limit 500000000000000001\n",
        ),
        ("check-mixed P Q A C", Status::Refused, "refused kinds 1\n"),
        ("mixed P Q A N", Status::Fault, ""),
        ("check-mixed P Q A B", Status::Fault, ""),
    ] {
        let mut shelf = shelf_of_kinds(alloc, &[]).expect(&rt, "memory");
        assert_run(&rt, alloc, line, &mut shelf, status, put);
        assert_file(&rt, &shelf, "P", None);
    }
}

#[test]
fn plan_and_proof_are_written_in_this_order(rt: HostRuntime) {
    let alloc = rt.alloc();
    for &(failing, plan) in &[(1, None), (2, None), (3, Some(BOTH))] {
        let mut shelf = shelf_of_kinds(alloc, &[failing]).expect(&rt, "memory");
        let line = "mixed P Q A B --limit 12";
        assert_run(&rt, alloc, line, &mut shelf, Status::Fault, "");
        assert_file(&rt, &shelf, "P", plan);
        assert_file(&rt, &shelf, "Q", None);
    }
}

/// A file with a piece of it that becomes another.
fn change(
    alloc: Global,
    shelf: &mut MemoryShelf,
    name: &str,
    pieces: (&str, &str),
) -> Result<(), AllocError> {
    let bytes = Vec::from_slice(alloc, shelf.get(name).unwrap_or(b"".as_slice()))?;
    let text = str::from_utf8(bytes.as_slice()).unwrap_or("");
    let changed = text.replacen(alloc, pieces.0, pieces.1, 1)?;
    shelf.set(name, changed.as_bytes())
}

/// `check-mixed` ends and puts so on what `mixed` writes for two kinds, with a piece of one file
/// changed, or the test fails.
fn assert_judged(
    rt: &impl Abort,
    alloc: Global,
    name: &str,
    pieces: (&str, &str),
    status: Status,
    put: &str,
) {
    let mut shelf = shelf_of_kinds(alloc, &[]).expect(rt, "memory");
    run_with(alloc, "mixed P Q A B --limit 12", &mut shelf, &[]).expect(rt, "memory");
    change(alloc, &mut shelf, name, pieces).expect(rt, "memory");
    let line = "check-mixed P Q A B --limit 12";
    assert_run(rt, alloc, line, &mut shelf, status, put);
}

#[test]
fn the_first_broken_rule_of_a_plan_is_told(rt: HostRuntime) {
    let alloc = rt.alloc();
    for &(pieces, status, put) in &[
        (
            ("", ""),
            Status::Done,
            "accepted\ncost 14/1\nbound 14/1\ngap 0/1\n",
        ),
        (
            ("kind 1 route", "kind 0 route"),
            Status::Done,
            "accepted\ncost 16/1\nbound 14/1\ngap 2/1\n",
        ),
        (
            ("kind 1 route", "kind 2 route"),
            Status::Refused,
            "refused plan 2 at 35\n",
        ),
        (
            ("1 route 0 1 0", "0 route 0 1 2 0"),
            Status::Negative,
            "rejected plan 1 route 0 walk 7 at 3\n",
        ),
        (
            ("route 0 2 0", "route 0 1 0"),
            Status::Negative,
            "rejected plan 2 customer 1\n",
        ),
    ] {
        assert_judged(&rt, alloc, "P", pieces, status, put);
    }
}

#[test]
fn the_first_broken_rule_of_a_proof_is_told(rt: HostRuntime) {
    let alloc = rt.alloc();
    for &(pieces, status, put) in &[
        (
            ("mixed 1", "mixed 2"),
            Status::Refused,
            "refused certificate 3\n",
        ),
        (
            ("kinds 2", "kinds 3"),
            Status::Refused,
            "refused certificate 2 at 22\n",
        ),
        (
            ("kind 0 ", "kind 1 "),
            Status::Refused,
            "refused certificate 2 at 106\n",
        ),
        (
            ("prices 6 8", "prices 8 8"),
            Status::Negative,
            "rejected mixed 3 kind 1 label 1\n",
        ),
        (
            ("bound 14", "bound 15"),
            Status::Negative,
            "rejected mixed 4\n",
        ),
        (
            ("share 1 1 ", "share 1 0 "),
            Status::Negative,
            "rejected mixed 5\n",
        ),
    ] {
        assert_judged(&rt, alloc, "Q", pieces, status, put);
    }
}

/// The job of a line, or the test fails.
fn job_of(rt: &impl Abort, alloc: Global, line: &str) -> Job {
    let words = words_of(alloc, line).expect(rt, "memory");
    let job = job_words(alloc, words.as_slice()).expect(rt, "memory");
    job.expect(rt, "a job")
}

#[test]
fn people_are_told_which_file_and_which_customer_it_is(rt: HostRuntime) {
    let alloc = rt.alloc();
    let mut shelf = shelf_of_kinds(alloc, &[]).expect(&rt, "memory");
    for &(line, want) in &[
        (
            "mixed P Q A B --limit 7",
            "A or B: no route of its own serves customer 2 within the limit",
        ),
        (
            "mixed P Q U",
            "U: no route of its own serves customer 1 within the limit",
        ),
    ] {
        let job = job_of(&rt, alloc, line);
        let JobNames {
            instances,
            limit,
            ..
        } = names_of(&job);
        let told = out_of_reach(alloc, &mut shelf, instances, limit);
        let told = told.expect(&rt, "memory").expect(&rt, "words");
        assert_eq!(rt; told.as_str(), want);
    }
    let job = job_of(&rt, alloc, "check-mixed P Q A X");
    let told = broken_json(alloc, &mut shelf, names_of(&job).instances);
    let told = told.expect(&rt, "memory").expect(&rt, "words");
    assert_eq!(rt; told.as_str(), "X: the JSON text ends too early, at byte 1");
}
