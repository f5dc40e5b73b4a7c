//! What is put where a rule is broken, and that nothing is written then.

use crate::files::{NARROW, OUT, assert_file, assert_run, run_with, shelf_with};
use evview_run::Status;
use worked_instances::{NO_STATION, ONE_STATION, TWO_CUSTOMERS};

/// The plan of the one customer with a station on the way.
const BY_STATION: &str = "evroute plan 1\nroutes 1\nroute 0 v2+1 1 0\n";

/// What `fixed` puts of that plan.
const CHARGED: &str = "time 43/2\nat 0\nvia 2 charge 1\nat 1\nat 0\n";

/// A plan file that holds no plan.
const NONE: &str = "evroute plan 1\nnone\n";

#[test]
fn the_first_broken_rule_is_put_and_nothing_is_written(rt: HostRuntime) {
    let alloc = rt.alloc();
    for &(line, instance, plan, status, put) in &[
        (
            "P A --svg S --json J",
            ONE_STATION,
            BY_STATION,
            Status::Refused,
            "refused instance 2\n",
        ),
        (
            "A P --svg S --json J --limit 1000000000000000000",
            ONE_STATION,
            BY_STATION,
            Status::Refused,
            "refused limit 1000000000000000000\n",
        ),
        (
            "A A --svg S --csv C",
            ONE_STATION,
            BY_STATION,
            Status::Words,
            "evview FILE PLAN [--limit N] [--route N] [--partial] [--fixed [--charge N]] [--exact] [--begin HH:MM --unit U] [--places FILE] [--svg OUT] [--json OUT] [--csv OUT] [--map OUT]\n",
        ),
        (
            "A P --svg S --json J",
            ONE_STATION,
            "evroute plan 1\nroutes 01\nroute 0 1 0\n",
            Status::Refused,
            "refused plan 1 at 22\n",
        ),
        (
            "A P --svg S --json J",
            ONE_STATION,
            "evroute plan 1\nroutes 1\nroute 0 1000000001 0\n",
            Status::Refused,
            "refused plan 2 at 32\n",
        ),
        (
            "A P --svg S --json J",
            ONE_STATION,
            "evroute plan 2\nnone\n",
            Status::Refused,
            "refused plan 3 at 0\n",
        ),
        (
            "A P --svg S --json J",
            ONE_STATION,
            "evroute plan 1\nroutes 1\nroute 0 1 0",
            Status::Refused,
            "refused plan 4 at 35\n",
        ),
        (
            "A P --svg S --json J --csv C --route 1",
            ONE_STATION,
            BY_STATION,
            Status::Refused,
            "refused number 1\n",
        ),
        (
            "A P --svg S --json J --csv C --route 1",
            ONE_STATION,
            OUT,
            Status::Refused,
            "refused number 1\n",
        ),
        (
            "A P --svg S --json J --route 0",
            ONE_STATION,
            NONE,
            Status::Refused,
            "refused number 0\n",
        ),
        (
            "A P --svg S --json J",
            ONE_STATION,
            OUT,
            Status::Negative,
            "rejected plan 1 route 0 walk 4 at 2\n",
        ),
        (
            "A P --svg S --json J --limit 21",
            ONE_STATION,
            BY_STATION,
            Status::Negative,
            "rejected plan 1 route 0 walk 7 at 3\n",
        ),
        (
            "A P --svg S --json J",
            NARROW,
            OUT,
            Status::Negative,
            "rejected plan 1 route 0 walk 7 at 2\n",
        ),
        (
            "A P --svg S --json J --route 0",
            NO_STATION,
            "evroute plan 1\nroutes 2\nroute 0 1 0\nroute 0 1 0\n",
            Status::Negative,
            "rejected plan 2 customer 1\n",
        ),
        (
            "A P --partial --svg S --json J",
            ONE_STATION,
            OUT,
            Status::Negative,
            "rejected plan 1 route 0 walk 4 at 2\n",
        ),
        (
            "A P --partial --svg S --json J",
            TWO_CUSTOMERS,
            "evroute plan 1\nroutes 2\nroute 0 2 0\nroute 0 2 0\n",
            Status::Negative,
            "rejected plan 2 customer 2\n",
        ),
        (
            "A P --svg S --json J",
            TWO_CUSTOMERS,
            OUT,
            Status::Negative,
            "rejected plan 3 customer 2\n",
        ),
        (
            "A P --svg S --json J --route 0",
            ONE_STATION,
            "evroute plan 1\nroutes 2\nroute 0 v2+1 1 0\nroute 0 v2 0\n",
            Status::Negative,
            "rejected plan 4 route 1\n",
        ),
        (
            "A P --svg S --json J",
            ONE_STATION,
            "evroute plan 1\nroutes 1\nroute 0 2+1 1 0\n",
            Status::Negative,
            "rejected plan 5 route 0 at 1\n",
        ),
        (
            "B P --svg S --json J",
            ONE_STATION,
            BY_STATION,
            Status::Fault,
            "",
        ),
        (
            "A B --svg S --json J",
            ONE_STATION,
            BY_STATION,
            Status::Fault,
            "",
        ),
    ] {
        let mut shelf = shelf_with(alloc, instance, plan, &[]).expect(&rt, "memory");
        assert_run(&rt, alloc, line, &mut shelf, status, put);
        assert_file(&rt, &shelf, "S", None);
        assert_file(&rt, &shelf, "J", None);
        assert_file(&rt, &shelf, "C", None);
    }
}

#[test]
fn a_charged_route_that_cannot_be_shown_is_told(rt: HostRuntime) {
    let alloc = rt.alloc();
    for &(line, plan, status, put) in &[
        (
            "A P --fixed --charge 11 --svg S --json J",
            "what stands here isn't read",
            Status::Refused,
            "refused charge 11\n",
        ),
        (
            "A P --fixed --limit 1000000000000000000 --charge 11",
            CHARGED,
            Status::Refused,
            "refused limit 1000000000000000000\n",
        ),
        (
            "A P --fixed --svg S --json J",
            BY_STATION,
            Status::Refused,
            "refused plan 3 at 0\n",
        ),
        (
            "A P --svg S --json J",
            CHARGED,
            Status::Refused,
            "refused plan 3 at 0\n",
        ),
        (
            "A P --fixed --svg S --json J",
            "time 43/3\nat 0\nvia 2 charge 1\nat 1\nat 0\n",
            Status::Refused,
            "refused plan 3 at 7\n",
        ),
        (
            "A P --fixed --svg S --json J",
            "time 043/2\nat 0\nvia 2 charge 1\nat 1\nat 0\n",
            Status::Refused,
            "refused plan 1 at 5\n",
        ),
        (
            "A P --fixed --svg S --json J",
            "time 43/2\nat 0\nvia 2 charge 0\nat 1\nat 0\n",
            Status::Refused,
            "refused plan 1 at 28\n",
        ),
        (
            "A P --fixed --svg S --json J",
            "time 43/2\nat 0\nvia 1000000001\n",
            Status::Refused,
            "refused plan 2 at 19\n",
        ),
        (
            "A P --fixed --svg S --json J",
            "time 43/2\nat 0\nvia",
            Status::Refused,
            "refused plan 4 at 15\n",
        ),
        (
            "A P --fixed --svg S --json J",
            "infeasible\ninfeasible\n",
            Status::Refused,
            "refused plan 3 at 11\n",
        ),
        (
            "A P --fixed --svg S --json J --csv C --route 1",
            CHARGED,
            Status::Refused,
            "refused number 1\n",
        ),
        (
            "A P --fixed --svg S --json J --route 0",
            "infeasible\n",
            Status::Refused,
            "refused number 0\n",
        ),
        (
            "A P --fixed --svg S --json J",
            "time 42/2\nat 0\nvia 2 charge 1\nat 1\nat 0\n",
            Status::Negative,
            "rejected time 42/2\n",
        ),
        (
            "A P --fixed --charge 9 --svg S --json J",
            CHARGED,
            Status::Negative,
            "rejected plan 1 route 0 walk 4 at 3\n",
        ),
        (
            "A P --fixed --svg S --json J",
            "time 0/2\n",
            Status::Negative,
            "rejected plan 1 route 0 walk 1\n",
        ),
    ] {
        let mut shelf = shelf_with(alloc, ONE_STATION, plan, &[]).expect(&rt, "memory");
        assert_run(&rt, alloc, line, &mut shelf, status, put);
        assert_file(&rt, &shelf, "S", None);
        assert_file(&rt, &shelf, "J", None);
        assert_file(&rt, &shelf, "C", None);
    }
}

#[test]
fn a_call_that_fails_is_a_fault(rt: HostRuntime) {
    let alloc = rt.alloc();
    // the calls of the files and of the output that fail, and whether that is behind both files, of
    // which it is asked first whether they can be written
    for &(call, put, behind_both) in &[
        (0, 1, false),
        (1, 1, false),
        (2, 1, false),
        (3, 1, false),
        (4, 1, false),
        (5, 1, false),
        (6, 0, true),
    ] {
        let mut shelf = shelf_with(alloc, ONE_STATION, BY_STATION, &[call]).expect(&rt, "memory");
        let line = "A P --svg S --json J";
        let ended = run_with(alloc, line, &mut shelf, &[put]).expect(&rt, "memory");
        assert_eq!(rt; ended.0, Status::Fault, "{call}");
        assert!(rt; ended.1.is_empty() || behind_both, "{call}");
        let written = shelf.get("S").is_some() && shelf.get("J").is_some();
        assert!(rt; written || !behind_both, "{call}");
    }
}
