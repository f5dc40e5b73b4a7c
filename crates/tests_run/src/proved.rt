use crate::files::{assert_file, assert_run, assert_run_on, shelf_with};
use command_line::usage;
use evroute_run::Status;
use std::alloc::{AllocError, Global};
use std::process::Abort;
use worked_instances::{NO_STATION, ONE_STATION};

/// A proof of the route 0, 1, 0 of the instance with one station, behind its first two lines.
const LABELS: &str =
    "labels 5\nlabel 0 0 10:0\nlabel 1 1 4:20\nlabel 0 2 7:16 8:17 10:29\nlabel 1 2 2:26 8:32 10:44\nlabel 1 1 5:22 6:23 8:35\n";

/// The text of a proof with this line of a plan, and these lines behind it.
fn proof_with(alloc: Global, plan: &str, labels: &str) -> Result<String, AllocError> {
    format!(in alloc; "evroute proof 1\n{plan}\n{labels}")
}

/// What `fixed` puts of the route.
const CHARGED: &str = "time 43/2\nat 0\nvia 2 charge 1\nat 1\nat 0\n";

#[test]
fn proofs_are_judged(rt: HostRuntime) {
    let alloc = rt.alloc();
    for &(options, plan, labels, status, put) in &[
        (
            "",
            "route 0 v2+1 1 0",
            LABELS,
            Status::Done,
            "accepted\nleast 43/2\n",
        ),
        (
            "",
            "route 0 1 v2+3 0",
            LABELS,
            Status::Negative,
            "rejected proof 5 label 4\n",
        ),
        (
            "",
            "route 0 v2+1 1 0",
            "labels 4\nlabel 0 0 10:0\nlabel 1 1 4:20\nlabel 1 2 2:26 8:32 10:44\nlabel 1 1 5:22 6:23 8:35\n",
            Status::Negative,
            "rejected proof 4 label 0 via 2\n",
        ),
        (
            " --charge 2",
            "none",
            "labels 1\nlabel 0 0 2:0\n",
            Status::Done,
            "accepted\ninfeasible\n",
        ),
        (
            "",
            "none",
            "labels 1\nlabel 0 0 10:0\n",
            Status::Negative,
            "rejected proof 4 label 0 node 1\n",
        ),
        (
            "",
            "none",
            "labels 0\n",
            Status::Negative,
            "rejected proof 3\n",
        ),
        (
            "",
            "route 0 v2+4 1 0",
            LABELS,
            Status::Negative,
            "rejected proof 1 walk 6 at 1\n",
        ),
        (
            "",
            "route 0",
            LABELS,
            Status::Negative,
            "rejected proof 1 walk 1\n",
        ),
        (
            "",
            "route 0 2 0",
            LABELS,
            Status::Negative,
            "rejected proof 2\n",
        ),
        (
            "",
            "route 0 v2+1 1 0",
            "labels 1\nlabel 2 0 10:0\n",
            Status::Refused,
            "refused certificate 2 at 48\n",
        ),
        (
            " --charge 11",
            "",
            "",
            Status::Refused,
            "refused charge 11\n",
        ),
    ] {
        let line = format!(in alloc; "check-route A 0,1,0 P{options}").expect(&rt, "memory");
        let proof = proof_with(alloc, plan, labels).expect(&rt, "memory");
        let (line, proof) = (line.as_str(), proof.as_str());
        assert_run_on(&rt, alloc, line, ONE_STATION, proof, status, put);
    }
}

/// With these options `prove` ends and puts so, and `check-route` then puts what is told, or the
/// test fails.
fn assert_both(
    rt: &impl Abort,
    alloc: Global,
    instance: &str,
    options: &str,
    status: Status,
    texts: (&str, &str),
) {
    let (put, told) = texts;
    let mut shelf = shelf_with(alloc, instance, "", &[]).expect(rt, "memory");
    let prove = format!(in alloc; "prove A 0,1,0 O{options}").expect(rt, "memory");
    assert_run(rt, alloc, prove.as_str(), &mut shelf, status, put);
    let judge = format!(in alloc; "check-route A 0,1,0 O{options}").expect(rt, "memory");
    assert_run(rt, alloc, judge.as_str(), &mut shelf, Status::Done, told);
}

#[test]
fn what_is_proved_is_accepted(rt: HostRuntime) {
    for &(instance, options, status, texts) in &[
        (
            ONE_STATION,
            "",
            Status::Done,
            (CHARGED, "accepted\nleast 43/2\n"),
        ),
        (
            ONE_STATION,
            " --charge 2",
            Status::Negative,
            ("infeasible\n", "accepted\ninfeasible\n"),
        ),
        (
            ONE_STATION,
            " --limit 0",
            Status::Negative,
            ("infeasible\n", "accepted\ninfeasible\n"),
        ),
        (
            NO_STATION,
            "",
            Status::Done,
            ("time 8/1\nat 0\nat 1\nat 0\n", "accepted\nleast 8/1\n"),
        ),
    ] {
        assert_both(&rt, rt.alloc(), instance, options, status, texts);
    }
}

#[test]
fn a_proof_is_written_only_where_an_answer_stands(rt: HostRuntime) {
    let alloc = rt.alloc();
    for &(line, status, put) in &[
        ("prove A 0,1 O", Status::Refused, "refused route 4\n"),
        ("prove B 0,1,0 O", Status::Fault, ""),
    ] {
        let shelf = assert_run_on(&rt, alloc, line, ONE_STATION, "", status, put);
        assert_file(&rt, &shelf, "O", None);
    }
    let mut shelf = shelf_with(alloc, ONE_STATION, "", &[1]).expect(&rt, "memory");
    assert_run(&rt, alloc, "prove A 0,1,0 O", &mut shelf, Status::Fault, "");
    assert_file(&rt, &shelf, "O", None);
    let line = "prove A 0,1,0 A";
    let shelf = assert_run_on(&rt, alloc, line, ONE_STATION, "", Status::Words, usage());
    assert_file(&rt, &shelf, "O", None);
}
