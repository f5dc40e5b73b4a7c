//! What is put and written of plans.

use crate::files::{NARROW, OUT, assert_file, assert_run, run_with, shelf_with};
use ev_outside::MemoryShelf;
use evview_run::Status;
use std::process::Abort;
use worked_instances::{DEPOT_ALONE, NO_STATION, ONE_STATION, PLUG_TIME, TWO_CUSTOMERS};

/// The plan of the one customer with a station on the way.
const BY_STATION: &str = "evroute plan 1\nroutes 1\nroute 0 v2+1 1 0\n";

/// A plan of no routes.
const EMPTY: &str = "evroute plan 1\nroutes 0\n";

/// A plan file that holds no plan.
const NONE: &str = "evroute plan 1\nnone\n";

/// A route for each of two customers.
const OUT_AND_BACK: &str = "evroute plan 1\nroutes 2\nroute 0 2 0\nroute 0 1 0\n";

#[test]
fn the_schedule_is_put_as_tables(rt: HostRuntime) {
    let alloc = rt.alloc();
    for &(line, instance, plan, put) in &[
        (
            "A P",
            ONE_STATION,
            BY_STATION,
            "route 0\n  stop  node  what        arrival  level  plug time   from     to    leaving\n     0     0  depot          0.00     10          -      -      -       0.00\n     1     2  station        8.00      7       0.00      7      8       8.50\n     2     1  customer      11.50      6          -      -      -      11.50\n     3     0  depot         21.50      0          -      -      -      21.50\ntotal of route 0: time 21.50, driving 21.00, serving 0.00, plugging in 0.00, charging 0.50, energy driven 11, energy charged 1, stops 4\n\ntotal of the plan: time 21.50, driving 21.00, serving 0.00, plugging in 0.00, charging 0.50, energy driven 11, energy charged 1, stops 4\n",
        ),
        (
            "A P --exact",
            PLUG_TIME,
            BY_STATION,
            "route 0\n  stop  node  what        arrival  level  plug time   from     to    leaving\n     0     0  depot           0/2     10          -      -      -        0/2\n     1     2  station        16/2      7        2/2      7      8       19/2\n     2     1  customer       25/2      6          -      -      -       25/2\n     3     0  depot          45/2      0          -      -      -       45/2\ntotal of route 0: time 45/2, driving 42/2, serving 0/2, plugging in 2/2, charging 1/2, energy driven 11, energy charged 1, stops 4\n\ntotal of the plan: time 45/2, driving 42/2, serving 0/2, plugging in 2/2, charging 1/2, energy driven 11, energy charged 1, stops 4\n",
        ),
        (
            "A P --route 1 --exact",
            TWO_CUSTOMERS,
            OUT_AND_BACK,
            "route 1\n  stop  node  what        arrival  level  plug time   from     to    leaving\n     0     0  depot           0/1     10          -      -      -        0/1\n     1     1  customer        4/1      9          -      -      -        4/1\n     2     0  depot           8/1      8          -      -      -        8/1\ntotal of route 1: time 8/1, driving 8/1, serving 0/1, plugging in 0/1, charging 0/1, energy driven 2, energy charged 0, stops 3\n\ntotal of the plan: time 16/1, driving 16/1, serving 0/1, plugging in 0/1, charging 0/1, energy driven 4, energy charged 0, stops 6\n",
        ),
        (
            "A P",
            DEPOT_ALONE,
            EMPTY,
            "total of the plan: time 0.00, driving 0.00, serving 0.00, plugging in 0.00, charging 0.00, energy driven 0, energy charged 0, stops 0\n",
        ),
        ("A P --exact", NO_STATION, NONE, "no plan\n"),
        (
            "A P --begin 23:50 --unit min",
            ONE_STATION,
            BY_STATION,
            "route 0\n  stop  node  what         arrival  level   plug time   from     to     leaving\n     0     0  depot       23:50:00     10           -      -      -    23:50:00\n     1     2  station     23:58:00      7        0.00      7      8    23:58:30\n     2     1  customer  00:01:30+1      6           -      -      -  00:01:30+1\n     3     0  depot     00:11:30+1      0           -      -      -  00:11:30+1\ntotal of route 0: time 21.50, driving 21.00, serving 0.00, plugging in 0.00, charging 0.50, energy driven 11, energy charged 1, stops 4\n\ntotal of the plan: time 21.50, driving 21.00, serving 0.00, plugging in 0.00, charging 0.50, energy driven 11, energy charged 1, stops 4\n",
        ),
        (
            "A P --exact --limit 8",
            NARROW,
            OUT,
            "route 0\n  stop  node  what        arrival  level  plug time   from     to    leaving\n     0     0  depot           0/1     10          -      -      -        0/1\n     1     1  customer        4/1      9          -      -      -        4/1\n     2     0  depot           8/1      8          -      -      -        8/1\ntotal of route 0: time 8/1, driving 8/1, serving 0/1, plugging in 0/1, charging 0/1, energy driven 2, energy charged 0, stops 3\n\ntotal of the plan: time 8/1, driving 8/1, serving 0/1, plugging in 0/1, charging 0/1, energy driven 2, energy charged 0, stops 3\n",
        ),
    ] {
        let mut shelf = shelf_with(alloc, instance, plan, &[]).expect(&rt, "memory");
        assert_run(&rt, alloc, line, &mut shelf, Status::Done, put);
    }
}

#[test]
fn a_part_of_a_plan_is_shown_where_it_is_asked_for(rt: HostRuntime) {
    let alloc = rt.alloc();
    for &(line, instance, plan, put) in &[
        (
            "A P --partial --exact",
            TWO_CUSTOMERS,
            OUT,
            "route 0\n  stop  node  what        arrival  level  plug time   from     to    leaving\n     0     0  depot           0/1     10          -      -      -        0/1\n     1     1  customer        4/1      9          -      -      -        4/1\n     2     0  depot           8/1      8          -      -      -        8/1\ntotal of route 0: time 8/1, driving 8/1, serving 0/1, plugging in 0/1, charging 0/1, energy driven 2, energy charged 0, stops 3\n\ntotal of the plan: time 8/1, driving 8/1, serving 0/1, plugging in 0/1, charging 0/1, energy driven 2, energy charged 0, stops 3\n",
        ),
        (
            "A P --partial",
            TWO_CUSTOMERS,
            EMPTY,
            "total of the plan: time 0.00, driving 0.00, serving 0.00, plugging in 0.00, charging 0.00, energy driven 0, energy charged 0, stops 0\n",
        ),
        (
            "A P --partial",
            ONE_STATION,
            "evroute plan 1\nroutes 1\nroute 0 2+1 0\n",
            "route 0\n  stop  node  what        arrival  level  plug time   from     to    leaving\n     0     0  depot          0.00     10          -      -      -       0.00\n     1     2  station        8.00      7       0.00      7      8       8.50\n     2     0  depot         16.50      3          -      -      -      16.50\ntotal of route 0: time 16.50, driving 16.00, serving 0.00, plugging in 0.00, charging 0.50, energy driven 8, energy charged 1, stops 3\n\ntotal of the plan: time 16.50, driving 16.00, serving 0.00, plugging in 0.00, charging 0.50, energy driven 8, energy charged 1, stops 3\n",
        ),
    ] {
        let mut shelf = shelf_with(alloc, instance, plan, &[]).expect(&rt, "memory");
        assert_run(&rt, alloc, line, &mut shelf, Status::Done, put);
    }
}

#[test]
fn a_charged_route_is_shown_from_the_level_at_its_start(rt: HostRuntime) {
    let alloc = rt.alloc();
    for &(line, plan, put) in &[
        (
            "A P --fixed",
            "time 43/2\nat 0\nvia 2 charge 1\nat 1\nat 0\n",
            "route 0\n  stop  node  what        arrival  level  plug time   from     to    leaving\n     0     0  depot          0.00     10          -      -      -       0.00\n     1     2  station        8.00      7       0.00      7      8       8.50\n     2     1  customer      11.50      6          -      -      -      11.50\n     3     0  depot         21.50      0          -      -      -      21.50\ntotal of route 0: time 21.50, driving 21.00, serving 0.00, plugging in 0.00, charging 0.50, energy driven 11, energy charged 1, stops 4\n\ntotal of the plan: time 21.50, driving 21.00, serving 0.00, plugging in 0.00, charging 0.50, energy driven 11, energy charged 1, stops 4\n",
        ),
        (
            "A P --fixed --charge 5 --exact --route 0",
            "time 48/2\nat 0\nvia 2 charge 6\nat 1\nat 0\n",
            "route 0\n  stop  node  what        arrival  level  plug time   from     to    leaving\n     0     0  depot           0/2      5          -      -      -        0/2\n     1     2  station        16/2      2        0/2      2      8       22/2\n     2     1  customer       28/2      6          -      -      -       28/2\n     3     0  depot          48/2      0          -      -      -       48/2\ntotal of route 0: time 48/2, driving 42/2, serving 0/2, plugging in 0/2, charging 6/2, energy driven 11, energy charged 6, stops 4\n\ntotal of the plan: time 48/2, driving 42/2, serving 0/2, plugging in 0/2, charging 6/2, energy driven 11, energy charged 6, stops 4\n",
        ),
        ("A P --fixed --charge 10", "infeasible\n", "no plan\n"),
    ] {
        let mut shelf = shelf_with(alloc, ONE_STATION, plan, &[]).expect(&rt, "memory");
        assert_run(&rt, alloc, line, &mut shelf, Status::Done, put);
    }
}

#[test]
fn the_schedule_is_written_as_json(rt: HostRuntime) {
    let alloc = rt.alloc();
    for &(line, instance, plan, want) in &[
        (
            "A P --json J",
            NO_STATION,
            OUT,
            "{\"format\":\"evview schedule 1\",\"denominator\":1,\"full\":10,\"reserve\":0,\"home\":0,\"routes\":[\n{\"route\":0,\"stops\":[\n{\"node\":0,\"kind\":\"depot\",\"inserted\":false,\"energy\":0,\"driving\":0,\"arrival\":0,\"level\":10,\"service\":0,\"plugging\":0,\"charging\":0,\"charged\":0,\"level_left\":10,\"leaving\":0},\n{\"node\":1,\"kind\":\"customer\",\"inserted\":false,\"energy\":1,\"driving\":4,\"arrival\":4,\"level\":9,\"service\":0,\"plugging\":0,\"charging\":0,\"charged\":0,\"level_left\":9,\"leaving\":4},\n{\"node\":0,\"kind\":\"depot\",\"inserted\":false,\"energy\":1,\"driving\":4,\"arrival\":8,\"level\":8,\"service\":0,\"plugging\":0,\"charging\":0,\"charged\":0,\"level_left\":8,\"leaving\":8}],\"totals\":{\"time\":8,\"driving\":8,\"serving\":0,\"plugging\":0,\"charging\":0,\"energy_driven\":2,\"energy_charged\":0,\"stops\":3}}],\"totals\":{\"time\":8,\"driving\":8,\"serving\":0,\"plugging\":0,\"charging\":0,\"energy_driven\":2,\"energy_charged\":0,\"stops\":3}}\n",
        ),
        (
            "A P --json J --begin 08:00 --unit h/2",
            NO_STATION,
            OUT,
            "{\"format\":\"evview schedule 1\",\"denominator\":1,\"full\":10,\"reserve\":0,\"home\":0,\"routes\":[\n{\"route\":0,\"stops\":[\n{\"node\":0,\"kind\":\"depot\",\"inserted\":false,\"energy\":0,\"driving\":0,\"arrival\":0,\"level\":10,\"service\":0,\"plugging\":0,\"charging\":0,\"charged\":0,\"level_left\":10,\"leaving\":0,\"arrival_clock\":\"08:00:00\",\"leaving_clock\":\"08:00:00\"},\n{\"node\":1,\"kind\":\"customer\",\"inserted\":false,\"energy\":1,\"driving\":4,\"arrival\":4,\"level\":9,\"service\":0,\"plugging\":0,\"charging\":0,\"charged\":0,\"level_left\":9,\"leaving\":4,\"arrival_clock\":\"10:00:00\",\"leaving_clock\":\"10:00:00\"},\n{\"node\":0,\"kind\":\"depot\",\"inserted\":false,\"energy\":1,\"driving\":4,\"arrival\":8,\"level\":8,\"service\":0,\"plugging\":0,\"charging\":0,\"charged\":0,\"level_left\":8,\"leaving\":8,\"arrival_clock\":\"12:00:00\",\"leaving_clock\":\"12:00:00\"}],\"totals\":{\"time\":8,\"driving\":8,\"serving\":0,\"plugging\":0,\"charging\":0,\"energy_driven\":2,\"energy_charged\":0,\"stops\":3}}],\"totals\":{\"time\":8,\"driving\":8,\"serving\":0,\"plugging\":0,\"charging\":0,\"energy_driven\":2,\"energy_charged\":0,\"stops\":3}}\n",
        ),
        (
            "A P --svg S --json=J",
            NO_STATION,
            NONE,
            "{\"format\":\"evview schedule 1\",\"routes\":null}\n",
        ),
        (
            "A P --json J --fixed",
            NO_STATION,
            "infeasible\n",
            "{\"format\":\"evview schedule 1\",\"routes\":null}\n",
        ),
        (
            "A P --json J",
            DEPOT_ALONE,
            EMPTY,
            "{\"format\":\"evview schedule 1\",\"denominator\":1,\"full\":10,\"reserve\":0,\"home\":0,\"routes\":[],\"totals\":{\"time\":0,\"driving\":0,\"serving\":0,\"plugging\":0,\"charging\":0,\"energy_driven\":0,\"energy_charged\":0,\"stops\":0}}\n",
        ),
    ] {
        let mut shelf = shelf_with(alloc, instance, plan, &[]).expect(&rt, "memory");
        let ended = run_with(alloc, line, &mut shelf, &[]).expect(&rt, "memory");
        assert_eq!(rt; ended.0, Status::Done, "{line}");
        assert_file(&rt, &shelf, "J", Some(want));
    }
}

#[test]
fn the_schedule_is_written_as_csv(rt: HostRuntime) {
    let alloc = rt.alloc();
    for &(line, instance, plan, want) in &[
        (
            "A P --csv C",
            ONE_STATION,
            BY_STATION,
            "route,stop,node,what,arrival,level,plug time,charge begin,charge end,from,to,leaving\n0,0,0,depot,0.00,10,,,,,,0.00\n0,1,2,station,8.00,7,0.00,8.00,8.50,7,8,8.50\n0,2,1,customer,11.50,6,,,,,,11.50\n0,3,0,depot,21.50,0,,,,,,21.50\n",
        ),
        (
            "A P --csv C --route 1 --exact",
            TWO_CUSTOMERS,
            OUT_AND_BACK,
            "route,stop,node,what,arrival,level,plug time,charge begin,charge end,from,to,leaving\n1,0,0,depot,0.00,10,,,,,,0.00\n1,1,1,customer,4.00,9,,,,,,4.00\n1,2,0,depot,8.00,8,,,,,,8.00\n",
        ),
        (
            "A P --csv C --begin 06:00 --unit s/2",
            ONE_STATION,
            BY_STATION,
            "route,stop,node,what,arrival,level,plug time,charge begin,charge end,from,to,leaving\n0,0,0,depot,06:00:00,10,,,,,,06:00:00\n0,1,2,station,06:00:04,7,0.00,06:00:04,06:00:04,7,8,06:00:04\n0,2,1,customer,06:00:06,6,,,,,,06:00:06\n0,3,0,depot,06:00:11,0,,,,,,06:00:11\n",
        ),
        (
            "A P --csv=C",
            NO_STATION,
            NONE,
            "route,stop,node,what,arrival,level,plug time,charge begin,charge end,from,to,leaving\n",
        ),
    ] {
        let mut shelf = shelf_with(alloc, instance, plan, &[]).expect(&rt, "memory");
        let ended = run_with(alloc, line, &mut shelf, &[]).expect(&rt, "memory");
        assert_eq!(rt; ended.0, Status::Done, "{line}");
        assert_file(&rt, &shelf, "C", Some(want));
    }
}

/// A file is there, and begins so, or is not there, or the test fails.
fn assert_begins(rt: &impl Abort, shelf: &MemoryShelf, name: &str, is_there: bool, start: &str) {
    assert_eq!(rt; shelf.get(name).is_some(), is_there, "{name}");
    let text = shelf.get(name).unwrap_or(start.as_bytes());
    assert!(rt; text.starts_with(start.as_bytes()), "{name}");
}

#[test]
fn each_file_that_is_asked_for_holds_its_own_text(rt: HostRuntime) {
    let alloc = rt.alloc();
    for &(line, instance, plan, svg, json) in &[
        ("A P --svg S --json J", ONE_STATION, BY_STATION, true, true),
        (
            "A P --json J --svg S",
            TWO_CUSTOMERS,
            OUT_AND_BACK,
            true,
            true,
        ),
        ("A P --svg S --json J", DEPOT_ALONE, EMPTY, true, true),
        ("A P --svg S --json J", NO_STATION, NONE, true, true),
        ("A P", ONE_STATION, BY_STATION, false, false),
        ("A P --svg S", ONE_STATION, BY_STATION, true, false),
        ("A P --json J", ONE_STATION, BY_STATION, false, true),
    ] {
        let mut shelf = shelf_with(alloc, instance, plan, &[]).expect(&rt, "memory");
        let ended = run_with(alloc, line, &mut shelf, &[]).expect(&rt, "memory");
        assert_eq!(rt; ended.0, Status::Done, "{line}");
        assert_begins(&rt, &shelf, "S", svg, "<svg ");
        assert_begins(&rt, &shelf, "J", json, "{\"format\":");
        assert_file(&rt, &shelf, "P", Some(plan));
    }
}
