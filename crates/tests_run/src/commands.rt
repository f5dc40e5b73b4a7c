use crate::files::{
    CHARGED, assert_file, assert_run, assert_run_on, certificate_with, run_on, run_with, shelf_with,
};
use command_line::usage;
use evroute_run::Status;
use std::alloc::Global;
use std::process::Abort;
use worked_instances::{FINE_UNITS, ONE_STATION, RESERVE, THREE_CUSTOMERS, TWO_CUSTOMERS};

/// A fleet plan whose route runs out of charge.
const UNCHARGED: &str = "evroute plan 1\nroutes 1\nroute 0 1 0\n";

/// A file with decimals.
const DECIMALS: &str =
    r#"{"max_q":16000.0,"t_max":10.0,"css":[{"node_id":2,"cs_type":"normal"}],"breakpoints_by_type":[{"cs_type":"normal","time":[0.0,0.62,0.77,1.01],"charge":[0.0,13600.0,15200.0,16000.0]}],"process_times":[0.0,0.5,0.0],"energy_matrix":[[0.0,9000.4,5000.0],[9000.4,0.0,4100.5],[5000.0,4100.5,0.0]],"time_matrix":[[0.0,1.8,1.0],[1.8,0.0,0.82],[1.01,0.82,0.0]]}"#;

/// The instance that is made of the number 1, with one customer and no station.
const MADE: &str =
    r#"{"breakpoints_by_type":[{"charge":[0,1360,1520,1600],"cs_type":"fast","time":[0,310,390,510]},{"charge":[0,1360,1520,1600],"cs_type":"slow","time":[0,1260,1540,2040]}],"css":[],"energy_matrix":[[0,772],[772,0]],"max_q":1600,"process_times":[0,5],"time_matrix":[[0,772],[772,0]]}"#;

#[test]
fn a_route_is_charged_or_refused(rt: HostRuntime) {
    const PUT: &str = "time 43/2\nat 0\nvia 2 charge 1\nat 1\nat 0\n";
    let alloc = rt.alloc();
    for &(line, text, status, put) in &[
        ("fixed A 0,1,0", ONE_STATION, Status::Done, PUT),
        (
            "fixed A 0,1,0 --charge 5",
            ONE_STATION,
            Status::Done,
            "time 48/2\nat 0\nvia 2 charge 6\nat 1\nat 0\n",
        ),
        (
            "fixed A 0,1,0 --charge 2",
            ONE_STATION,
            Status::Negative,
            "infeasible\n",
        ),
        (
            "fixed A 0,1,0 --limit 21",
            ONE_STATION,
            Status::Negative,
            "infeasible\n",
        ),
        ("fixed A 0,1,0 --limit 22", ONE_STATION, Status::Done, PUT),
        (
            "fixed A 0,1,0 --limit 500000000000000001",
            ONE_STATION,
            Status::Refused,
            "refused limit 500000000000000001\n",
        ),
        (
            "fixed A 0,1,0 --charge 11",
            ONE_STATION,
            Status::Refused,
            "refused charge 11\n",
        ),
        (
            "fixed A 0,3,0",
            ONE_STATION,
            Status::Refused,
            "refused route 3 at 1\n",
        ),
        (
            "fixed A 0,1,0",
            "{",
            Status::Refused,
            "refused instance 2\n",
        ),
        (
            "fixed A 0,1,0",
            FINE_UNITS,
            Status::Done,
            "time 4300000000/200000000\nat 0\nvia 2 charge 100000000\nat 1\nat 0\n",
        ),
        ("fixed B 0,1,0", ONE_STATION, Status::Fault, ""),
    ] {
        assert_run_on(&rt, alloc, line, text, "", status, put);
    }
    assert_run_on(
        &rt,
        alloc,
        "fixed A",
        ONE_STATION,
        "",
        Status::Words,
        usage(),
    );
}

#[test]
fn a_plan_is_accepted_or_its_first_broken_rule_named(rt: HostRuntime) {
    const ACCEPTED: &str = "accepted\ncost 43/2\nbound 43/2\ngap 0/2\n";
    const LATE: &str = "evroute plan 1\nroutes 1\nroute 0 1 v2+3 0\n";
    const TWICE: &str = "evroute plan 1\nroutes 2\nroute 0 v2+1 1 0\nroute 0 v2+1 1 0\n";
    const EMPTY: &str = "evroute plan 1\nroutes 2\nroute 0 v2+1 1 0\nroute 0 v2 0\n";
    const STRAY: &str = "evroute plan 1\nroutes 1\nroute 0 2+1 1 0\n";
    let alloc = rt.alloc();
    for &(line, plan, status, put) in &[
        ("check A P Q", CHARGED, Status::Done, ACCEPTED),
        (
            "check A P Q",
            "evroute plan 1\nnone\n",
            Status::Done,
            "accepted\ncost none\nbound 43/2\ngap none\n",
        ),
        ("check A P Q", "", Status::Refused, "refused plan 4 at 0\n"),
        (
            "check A P Q",
            UNCHARGED,
            Status::Negative,
            "rejected plan 1 route 0 walk 4 at 2\n",
        ),
        (
            "check A P Q --limit 22",
            LATE,
            Status::Negative,
            "rejected plan 1 route 0 walk 7 at 3\n",
        ),
        (
            "check A P Q",
            TWICE,
            Status::Negative,
            "rejected plan 2 customer 1\n",
        ),
        (
            "check A P Q",
            "evroute plan 1\nroutes 0\n",
            Status::Negative,
            "rejected plan 3 customer 1\n",
        ),
        (
            "check A P Q",
            EMPTY,
            Status::Negative,
            "rejected plan 4 route 1\n",
        ),
        (
            "check A P Q",
            STRAY,
            Status::Negative,
            "rejected plan 5 route 0 at 1\n",
        ),
        (
            "check A P Q --limit 500000000000000001",
            CHARGED,
            Status::Refused,
            "refused limit 500000000000000001\n",
        ),
        ("check A B Q", CHARGED, Status::Fault, ""),
    ] {
        assert_run_on(&rt, alloc, line, ONE_STATION, plan, status, put);
    }
    assert_run_on(
        &rt,
        alloc,
        "check A P P",
        ONE_STATION,
        CHARGED,
        Status::Words,
        usage(),
    );
}

/// The program judges the certificate with this bound so, or the test fails.
fn assert_check(
    rt: &impl Abort,
    alloc: Global,
    plan: &str,
    bound: &str,
    status: Status,
    put: &str,
) {
    let mut shelf = shelf_with(alloc, ONE_STATION, plan, &[]).expect(rt, "memory");
    let certificate = certificate_with(alloc, bound).expect(rt, "memory");
    shelf.set("Q", certificate.as_bytes()).expect(rt, "memory");
    assert_run(rt, alloc, "check A P Q", &mut shelf, status, put);
}

#[test]
fn a_certificate_is_accepted_or_its_first_broken_rule_named(rt: HostRuntime) {
    for &(plan, bound, status, put) in &[
        (
            CHARGED,
            "40",
            Status::Done,
            "accepted\ncost 43/2\nbound 40/2\ngap 3/2\n",
        ),
        (
            CHARGED,
            "44",
            Status::Negative,
            "rejected certificate 5 leaf 0\n",
        ),
        (
            CHARGED,
            "none",
            Status::Negative,
            "rejected certificate 5 leaf 0\n",
        ),
        (
            UNCHARGED,
            "44",
            Status::Negative,
            "rejected plan 1 route 0 walk 4 at 2\n",
        ),
        (
            UNCHARGED,
            "044",
            Status::Refused,
            "refused certificate 1 at 28\n",
        ),
        (
            CHARGED,
            "79228162514264337593543950337",
            Status::Refused,
            "refused certificate 2 at 28\n",
        ),
        ("", "044", Status::Refused, "refused plan 4 at 0\n"),
    ] {
        assert_check(&rt, rt.alloc(), plan, bound, status, put);
    }
}

#[test]
fn a_broken_plan_file_is_refused_before_the_certificate_is_read(rt: HostRuntime) {
    let alloc = rt.alloc();
    let ended = run_on(alloc, "check A P Q", ONE_STATION, "", &[2], &[]).expect(&rt, "memory");
    assert_eq!(rt; ended.0, Status::Refused);
    assert_eq!(rt; ended.1.as_slice(), "refused plan 4 at 0\n".as_bytes());
}

#[test]
fn the_reserve_is_kept(rt: HostRuntime) {
    let alloc = rt.alloc();
    for &(line, status, put) in &[
        (
            "fixed A 0,1,0",
            Status::Done,
            "time 46/2\nat 0\nat 1\nvia 2 charge 4\nat 0\n",
        ),
        ("check A P Q", Status::Refused, "refused certificate 3\n"),
    ] {
        assert_run_on(&rt, alloc, line, RESERVE, CHARGED, status, put);
    }
}

#[test]
fn a_fleet_is_planned_where_no_rule_is_broken(rt: HostRuntime) {
    let alloc = rt.alloc();
    for &(line, instance, status, put) in &[
        ("fleet A P Q", "{", Status::Refused, "refused instance 2\n"),
        (
            "fleet A P Q --limit 500000000000000001 --nodes 1",
            ONE_STATION,
            Status::Refused,
            "refused limit 500000000000000001\n",
        ),
        ("fleet B P Q", ONE_STATION, Status::Fault, ""),
    ] {
        let shelf = assert_run_on(&rt, alloc, line, instance, CHARGED, status, put);
        assert_file(&rt, &shelf, "P", Some(CHARGED));
    }
    for &line in &["fleet A P A", "fleet A P Q --nodes 0"] {
        let (status, put) = (Status::Words, usage());
        let shelf = assert_run_on(&rt, alloc, line, ONE_STATION, CHARGED, status, put);
        assert_file(&rt, &shelf, "P", Some(CHARGED));
    }
}

#[test]
fn a_fleet_is_planned_at_its_bound(rt: HostRuntime) {
    let alloc = rt.alloc();
    for &(line, instance, status, put) in &[
        (
            "fleet A P Q",
            ONE_STATION,
            Status::Done,
            "cost 43/2\nbound 43/2\ngap 0/2\nroot exact 43/2\n",
        ),
        (
            "fleet A P Q --limit 12",
            TWO_CUSTOMERS,
            Status::Done,
            "cost 16/1\nbound 16/1\ngap 0/1\nroot exact 16/1\n",
        ),
        (
            "fleet A P Q --limit 7",
            TWO_CUSTOMERS,
            Status::Negative,
            "infeasible\n",
        ),
    ] {
        assert_run_on(&rt, alloc, line, instance, "", status, put);
    }
}

#[test]
fn a_budget_stops_a_search_and_its_files_are_accepted(rt: HostRuntime) {
    let alloc = rt.alloc();
    let mut shelf = shelf_with(alloc, THREE_CUSTOMERS, "", &[]).expect(&rt, "memory");
    for &(line, status) in &[
        ("fleet A P Q --limit 11 --nodes 1", Status::Stopped),
        ("check A P Q --limit 11", Status::Done),
        ("fleet A P Q --limit 11", Status::Done),
        ("check A P Q --limit 11", Status::Done),
    ] {
        let ended = run_with(alloc, line, &mut shelf, &[]).expect(&rt, "memory");
        assert_eq!(rt; ended.0, status, "{line}");
    }
}

#[test]
fn a_fleet_has_no_more_than_128_customers(rt: HostRuntime) {
    let alloc = rt.alloc();
    let mut shelf = shelf_with(alloc, ONE_STATION, CHARGED, &[]).expect(&rt, "memory");
    let made = run_with(alloc, "make 1 129 0 W", &mut shelf, &[]).expect(&rt, "memory");
    assert_eq!(rt; made.0, Status::Negative);
    for &line in &[
        "fleet W P Q",
        "check W P Q",
        "bound W Q --near 2",
        "check-bound W Q",
    ] {
        let (status, put) = (Status::Refused, "refused customers 129\n");
        assert_run(&rt, alloc, line, &mut shelf, status, put);
    }
}

#[test]
fn decimals_become_whole_in_another_file(rt: HostRuntime) {
    const WHOLE: &str = "convert A W --time-digits 0 --energy-digits 0";
    let alloc = rt.alloc();
    for &(line, text, status, put, written) in &[
        (
            WHOLE,
            r#"{"max_q":2.5}"#,
            Status::Done,
            "",
            Some(r#"{"max_q":3}"#),
        ),
        (
            "convert A W --time-digits 3 --energy-digits 0",
            r#"{"time":[1e-05]}"#,
            Status::Done,
            "",
            Some(r#"{"time":[1]}"#),
        ),
        (
            WHOLE,
            r#"{"max_q":-0.5}"#,
            Status::Refused,
            "refused literal 2 at 9\n",
            None,
        ),
        (
            "convert A W --time-digits 10 --energy-digits 0",
            "{}",
            Status::Refused,
            "refused literal 4\n",
            None,
        ),
        (
            "convert B W --time-digits 10 --energy-digits 0",
            "{}",
            Status::Fault,
            "",
            None,
        ),
    ] {
        let shelf = assert_run_on(&rt, alloc, line, text, "", status, put);
        assert_file(&rt, &shelf, "W", written);
    }
    let line = "convert A A --time-digits 0 --energy-digits 0";
    let shelf = assert_run_on(&rt, alloc, line, "{}", "", Status::Words, usage());
    assert_file(&rt, &shelf, "W", None);
}

#[test]
fn a_file_with_decimals_is_converted_and_then_charged(rt: HostRuntime) {
    let alloc = rt.alloc();
    let mut shelf = shelf_with(alloc, DECIMALS, "", &[]).expect(&rt, "memory");
    for &(line, put) in &[
        ("convert A W --time-digits 2 --energy-digits 0", ""),
        (
            "fixed W 0,1,0",
            "time 11467048/27200\nat 0\nvia 2 charge 2102\nat 1\nat 0\n",
        ),
    ] {
        assert_run(&rt, alloc, line, &mut shelf, Status::Done, put);
    }
}

#[test]
fn a_made_instance_is_written_and_charged(rt: HostRuntime) {
    let alloc = rt.alloc();
    for &(line, status, put, written) in &[
        (
            "make 1 1 0 W",
            Status::Done,
            "nodes 2\ndenominator 136\ntime 210664/136\n",
            Some(MADE),
        ),
        ("make 0 1 0 W", Status::Refused, "refused maker 1\n", None),
    ] {
        let shelf = assert_run_on(&rt, alloc, line, "", "", status, put);
        assert_file(&rt, &shelf, "W", written);
    }
}

#[test]
fn a_made_instance_is_written_whether_its_route_is_feasible_or_not(rt: HostRuntime) {
    let alloc = rt.alloc();
    for &(line, status, put) in &[
        (
            "make 1 5 0 W",
            Status::Negative,
            "nodes 6\ndenominator 136\ninfeasible\n",
        ),
        (
            "make 7 10 10 W",
            Status::Done,
            "nodes 21\ndenominator 136\ntime 1028557/136\n",
        ),
    ] {
        let shelf = assert_run_on(&rt, alloc, line, "", "", status, put);
        assert!(rt; shelf.get("W").is_some());
    }
}
