//! What `plan` writes is accepted by `check`, with the same lines.

use crate::files::{run_at_once, run_with, shelf_with};
use ev_outside::MemoryShelf;
use evgap_run::Status;
use std::alloc::Global;
use std::process::Abort;
use worked_instances::{
    DEPOT_ALONE, NO_STATION, ONE_STATION, PLUG_TIME, THREE_CUSTOMERS, TWO_CUSTOMERS,
};

/// A depot that is a station too, and two customers of whom a full battery reaches one at a time.
const DEPOT_CHARGES: &str =
    r#"{"max_q":10,"css":[{"node_id":0,"cs_type":"fast"}],"breakpoints_by_type":[{"cs_type":"fast","time":[0,4,10],"charge":[0,8,10]}],"process_times":[0,0,0],"energy_matrix":[[0,4,4],[4,0,4],[4,4,0]],"time_matrix":[[0,4,4],[4,0,1],[4,1,0]]}"#;

/// A depot and two customers without any time between them.
const AT_ONE_PLACE: &str =
    r#"{"max_q":10,"css":[],"breakpoints_by_type":[],"process_times":[0,0,0],"energy_matrix":[[0,1,1],[1,0,1],[1,1,0]],"time_matrix":[[0,0,0],[0,0,0],[0,0,0]]}"#;

/// A depot and a customer whom no battery reaches.
const OUT_OF_REACH: &str =
    r#"{"max_q":10,"css":[],"breakpoints_by_type":[],"process_times":[0,0],"energy_matrix":[[0,9],[9,0]],"time_matrix":[[0,4],[4,0]]}"#;

/// What `plan` put about the files `O` and `C` is what `check` puts behind `accepted`, or the test
/// fails.
fn assert_accepted(rt: &impl Abort, alloc: Global, shelf: &mut MemoryShelf, put: &[u8]) {
    let told = run_with(alloc, "check A O C", shelf, &[]).expect(rt, "memory");
    assert_eq!(rt; told.0, Status::Done);
    let mut want = Vec::from_slice(alloc, b"accepted\n").expect(rt, "memory");
    want.extend_from_slice(put).expect(rt, "memory");
    assert_eq!(rt; told.1.as_slice(), want.as_slice());
}

#[test]
fn what_is_written_is_accepted(rt: HostRuntime) {
    let alloc = rt.alloc();
    for instance in &[
        DEPOT_ALONE,
        DEPOT_CHARGES,
        AT_ONE_PLACE,
        NO_STATION,
        ONE_STATION,
        PLUG_TIME,
        TWO_CUSTOMERS,
        THREE_CUSTOMERS,
    ] {
        let mut shelf = shelf_with(alloc, instance, "", "", &[]).expect(&rt, "memory");
        let put = run_with(alloc, "plan A O C", &mut shelf, &[]).expect(&rt, "memory");
        assert_accepted(&rt, alloc, &mut shelf, put.1.as_slice());
    }
}

#[test]
fn that_there_is_no_plan_is_accepted(rt: HostRuntime) {
    let alloc = rt.alloc();
    let mut shelf = shelf_with(alloc, OUT_OF_REACH, "", "", &[]).expect(&rt, "memory");
    let put = run_with(alloc, "plan A O C", &mut shelf, &[]).expect(&rt, "memory");
    assert_eq!(rt; put.1.as_slice(), b"infeasible\n".as_slice());
    assert_accepted(&rt, alloc, &mut shelf, b"cost none\nbound none\ngap none\n");
}

#[test]
fn a_search_without_time_writes_what_is_accepted(rt: HostRuntime) {
    let alloc = rt.alloc();
    for instance in &[DEPOT_ALONE, ONE_STATION, THREE_CUSTOMERS] {
        let mut shelf = shelf_with(alloc, instance, "", "", &[]).expect(&rt, "memory");
        let line = "plan A O C --seconds 0";
        let put = run_at_once(alloc, line, &mut shelf).expect(&rt, "memory");
        assert_accepted(&rt, alloc, &mut shelf, put.1.as_slice());
    }
}
