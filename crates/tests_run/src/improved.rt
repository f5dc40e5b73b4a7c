use crate::files::{assert_begins, assert_file, assert_run, assert_run_on, shelf_with};
use evroute_run::Status;
use worked_instances::{DEPOT_ALONE, ONE_STATION, THREE_CUSTOMERS, TWO_CUSTOMERS};

/// A plan file that holds no plan.
const NONE: &str = "evroute plan 1\nnone\n";

/// A route for each of three customers.
const OUT_AND_BACK: &str = "evroute plan 1\nroutes 3\nroute 0 1 0\nroute 0 2 0\nroute 0 3 0\n";

/// Two routes that serve three customers.
const IN_TWO: &str = "evroute plan 1\nroutes 2\nroute 0 1 2 0\nroute 0 3 0\n";

#[test]
fn a_plan_is_made_cheaper_or_told_why_not(rt: HostRuntime) {
    let alloc = rt.alloc();
    for &(line, instance, plan, status, put) in &[
        (
            "improve A P O --limit 11",
            THREE_CUSTOMERS,
            NONE,
            Status::Done,
            "cost 19/1\nwas none\n",
        ),
        (
            "improve A P O --limit 11",
            THREE_CUSTOMERS,
            OUT_AND_BACK,
            Status::Done,
            "cost 19/1\nwas 24/1\n",
        ),
        (
            "improve A P O --limit 11",
            THREE_CUSTOMERS,
            IN_TWO,
            Status::Done,
            "cost 19/1\nwas 19/1\n",
        ),
        (
            "improve A P O",
            TWO_CUSTOMERS,
            NONE,
            Status::Done,
            "cost 13/1\nwas none\n",
        ),
        (
            "improve A P O --limit 7",
            TWO_CUSTOMERS,
            NONE,
            Status::Negative,
            "alone 1\n",
        ),
        (
            "improve A P O",
            DEPOT_ALONE,
            NONE,
            Status::Done,
            "cost 0/1\nwas none\n",
        ),
        (
            "improve A P O --limit 7",
            THREE_CUSTOMERS,
            OUT_AND_BACK,
            Status::Negative,
            "rejected plan 1 route 0 walk 7 at 2\n",
        ),
        (
            "improve A P O",
            TWO_CUSTOMERS,
            "evroute plan 1\nroutes 1\nroute 0 1 0\n",
            Status::Negative,
            "rejected plan 3 customer 2\n",
        ),
        (
            "improve A P O",
            TWO_CUSTOMERS,
            OUT_AND_BACK,
            Status::Negative,
            "rejected plan 1 route 2 walk 2 at 1\n",
        ),
        (
            "improve A P O",
            TWO_CUSTOMERS,
            "",
            Status::Refused,
            "refused plan 4 at 0\n",
        ),
        (
            "improve A P O",
            "{",
            "",
            Status::Refused,
            "refused instance 2\n",
        ),
        (
            "improve A P O --limit 500000000000000001",
            ONE_STATION,
            "",
            Status::Refused,
            "refused limit 500000000000000001\n",
        ),
        ("improve B P O", TWO_CUSTOMERS, NONE, Status::Fault, ""),
        ("improve A R O", TWO_CUSTOMERS, NONE, Status::Fault, ""),
    ] {
        let shelf = assert_run_on(&rt, alloc, line, instance, plan, status, put);
        assert_eq!(rt; shelf.get("O").is_some(), status == Status::Done, "{line}");
        assert_file(&rt, &shelf, "P", Some(plan));
    }
}

#[test]
fn what_is_written_is_settled(rt: HostRuntime) {
    let alloc = rt.alloc();
    let line = "improve A P O --limit 11";
    let (before, put) = (OUT_AND_BACK, "cost 19/1\nwas 24/1\n");
    let shelf = assert_run_on(&rt, alloc, line, THREE_CUSTOMERS, before, Status::Done, put);
    assert_begins(&rt, &shelf, "O", "evroute plan 1\nroutes 2\n");
    let left = shelf.get("O").unwrap_or(b"".as_slice());
    let plan = str::from_utf8(left).expect(&rt, "text");
    let put = "cost 19/1\nwas 19/1\n";
    assert_run_on(&rt, alloc, line, THREE_CUSTOMERS, plan, Status::Done, put);
}

#[test]
fn a_failed_write_leaves_the_plan(rt: HostRuntime) {
    let alloc = rt.alloc();
    let mut shelf = shelf_with(alloc, TWO_CUSTOMERS, NONE, &[2]).expect(&rt, "memory");
    assert_run(&rt, alloc, "improve A P O", &mut shelf, Status::Fault, "");
    assert_file(&rt, &shelf, "P", Some(NONE));
}
