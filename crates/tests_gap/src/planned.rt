//! Plans and bounds of worked instances.

use crate::files::{assert_file, assert_run, run_with, shelf_with};
use evgap_run::Status;
use worked_instances::{DEPOT_ALONE, NO_STATION, ONE_STATION, THREE_CUSTOMERS, TWO_CUSTOMERS};

/// A plan file that holds no plan.
const NONE: &str = "evroute plan 1\nnone\n";

/// A depot and two customers, of whom the first is reached in time by way of the second alone.
pub const BEHIND: &str =
    r#"{"max_q":10,"css":[],"breakpoints_by_type":[],"process_times":[0,0,0],"energy_matrix":[[0,1,1],[1,0,1],[1,1,0]],"time_matrix":[[0,100,2],[2,0,2],[2,2,0]]}"#;

/// A route for each of three customers.
const OUT_AND_BACK: &str = "evroute plan 1\nroutes 3\nroute 0 1 0\nroute 0 2 0\nroute 0 3 0\n";

#[test]
fn plans_and_bounds_are_put_with_their_gap(rt: HostRuntime) {
    let alloc = rt.alloc();
    for &(line, instance, start, status, put) in &[
        (
            "plan A O C",
            ONE_STATION,
            NONE,
            Status::Done,
            "cost 43/2\nbound 43/2\ngap 0/2\ngap 0.00 %\n",
        ),
        (
            "plan A O C",
            NO_STATION,
            NONE,
            Status::Done,
            "cost 8/1\nbound 8/1\ngap 0/1\ngap 0.00 %\n",
        ),
        (
            "plan A O C --start S",
            THREE_CUSTOMERS,
            OUT_AND_BACK,
            Status::Done,
            "cost 14/1\nbound 14/1\ngap 0/1\ngap 0.00 %\n",
        ),
        (
            "plan A O C --start S",
            THREE_CUSTOMERS,
            NONE,
            Status::Done,
            "cost 14/1\nbound 14/1\ngap 0/1\ngap 0.00 %\n",
        ),
        (
            "plan A O C --limit 10 --effort 0",
            BEHIND,
            NONE,
            Status::Stopped,
            "alone 1\ncost none\nbound 6/1\ngap none\n",
        ),
        (
            "plan A O C --limit 11 --nodes 20",
            THREE_CUSTOMERS,
            NONE,
            Status::Done,
            "cost 19/1\nbound 19/1\ngap 0/1\ngap 0.00 %\n",
        ),
        (
            "plan A O C --limit 10 --effort 0 --nodes 20",
            BEHIND,
            NONE,
            Status::Done,
            "cost 6/1\nbound 6/1\ngap 0/1\ngap 0.00 %\n",
        ),
        (
            "plan A O C",
            DEPOT_ALONE,
            NONE,
            Status::Done,
            "cost 0/1\nbound 0/1\ngap 0/1\ngap 0.00 %\n",
        ),
        (
            "plan A O C --limit 7",
            TWO_CUSTOMERS,
            NONE,
            Status::Negative,
            "infeasible\n",
        ),
        (
            "plan A O C --start S",
            TWO_CUSTOMERS,
            "evroute plan 1\nroutes 1\nroute 0 1 0\n",
            Status::Negative,
            "rejected plan 3 customer 2\n",
        ),
        (
            "plan A O C --start S",
            TWO_CUSTOMERS,
            OUT_AND_BACK,
            Status::Negative,
            "rejected plan 1 route 2 walk 2 at 1\n",
        ),
        (
            "plan A O C --start S",
            TWO_CUSTOMERS,
            "evroute plan 2\nnone\n",
            Status::Refused,
            "refused plan 3 at 0\n",
        ),
        (
            "plan A O C --limit 1000000000000000001",
            TWO_CUSTOMERS,
            NONE,
            Status::Words,
            "evgap plan FILE PLAN PROOF [--limit N] [--seconds N] [--start PLAN0] [--seed N] [--effort N] [--nodes N]\nevgap check FILE PLAN PROOF [--limit N]\n",
        ),
    ] {
        let mut shelf = shelf_with(alloc, instance, start, "", &[]).expect(&rt, "memory");
        assert_run(&rt, alloc, line, &mut shelf, status, put);
    }
}

#[test]
fn nothing_is_written_where_a_rule_is_broken(rt: HostRuntime) {
    let alloc = rt.alloc();
    for &(line, status) in &[
        ("plan A O C --start S", Status::Negative),
        (
            "plan A O C --start S --limit 1000000000000000000",
            Status::Negative,
        ),
        ("plan A O C --start B", Status::Fault),
        ("plan B O C", Status::Fault),
        ("plan P O C", Status::Refused),
        ("plan A O C --start A", Status::Words),
    ] {
        let mut shelf = shelf_with(alloc, TWO_CUSTOMERS, OUT_AND_BACK, "", &[]).expect(
            &rt, "memory",
        );
        let ended = run_with(alloc, line, &mut shelf, &[]).expect(&rt, "memory");
        assert_eq!(rt; ended.0, status, "{line}");
        assert_file(&rt, &shelf, "O", None);
        assert_file(&rt, &shelf, "C", None);
    }
}

#[test]
fn a_plan_to_begin_with_is_made_cheaper(rt: HostRuntime) {
    let alloc = rt.alloc();
    let mut shelf = shelf_with(alloc, THREE_CUSTOMERS, OUT_AND_BACK, "", &[]).expect(&rt, "memory");
    let line = "plan A O C --start S --limit 11";
    let ended = run_with(alloc, line, &mut shelf, &[]).expect(&rt, "memory");
    assert!(rt; ended.1.as_slice().starts_with(b"cost 19/1\n"), "{line}");
    assert_eq!(rt; ended.0, Status::Stopped, "{line}");
}
