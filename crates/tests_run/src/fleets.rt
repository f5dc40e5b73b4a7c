use crate::files::{assert_begins, assert_run_on};
use evroute_run::Status;
use worked_instances::{THREE_CUSTOMERS, TWO_CUSTOMERS};

#[test]
fn a_fleet_is_planned_with_its_whole_report(rt: HostRuntime) {
    let alloc = rt.alloc();
    for &(line, instance, status, put, plan) in &[
        (
            "fleet A P Q",
            TWO_CUSTOMERS,
            Status::Done,
            "cost 13/1\nbound 13/1\ngap 0/1\nroot exact 13/1\n",
            "evroute plan 1\nroutes 1\n",
        ),
        (
            "fleet A P Q --limit 11",
            THREE_CUSTOMERS,
            Status::Done,
            "cost 19/1\nbound 19/1\ngap 0/1\nroot exact 33/2\n",
            "evroute plan 1\nroutes 2\n",
        ),
        (
            "fleet A P Q --limit 11 --nodes 1",
            THREE_CUSTOMERS,
            Status::Stopped,
            "cost 19/1\nbound 17/1\ngap 2/1\nroot exact 33/2\nnodes 1\n",
            "evroute plan 1\nroutes 2\n",
        ),
    ] {
        let shelf = assert_run_on(&rt, alloc, line, instance, "", status, put);
        assert_begins(&rt, &shelf, "P", plan);
    }
}
