//! Worked instances.

use crate::both::{both_times, instance_of};
use std::alloc::Global;
use worked_instances::{
    HOME_LEVEL, NO_STATION, ONE_STATION, PLUG_TIME, RESERVE, THREE_CUSTOMERS, TWO_CUSTOMERS,
    TWO_PLUG_TIMES, TWO_STATIONS,
};

/// A file with decimals after its conversion to hundredths of a time and whole energies: a depot, a
/// customer (node 1) and a station (node 2), of whose curve the charge 2102 is no breakpoint.
const CONVERTED: &str =
    r#"{"max_q":16000,"t_max":1000,"css":[{"node_id":2,"cs_type":"normal"}],"breakpoints_by_type":[{"cs_type":"normal","time":[0,62,77,101],"charge":[0,13600,15200,16000]}],"process_times":[0,50,0],"energy_matrix":[[0,9001,5000],[9001,0,4101],[5000,4101,0]],"time_matrix":[[0,180,100],[180,0,82],[101,82,0]]}"#;

/// How long the plans of a route of the instance of a text take, by the table and by labels.
fn times_of(
    alloc: Global,
    text: &str,
    word: &str,
    start: u64,
    limit: Option<u64>,
) -> Option<(Option<u64>, Option<u64>)> {
    let inst = instance_of(alloc, text, limit)?;
    both_times(alloc, &inst, word, start)
}

#[test]
fn both_solvers_agree_on_worked_instances(rt: HostRuntime) {
    let alloc = rt.alloc();
    for &(text, word, start, limit, want) in &[
        (ONE_STATION, "0,1,0", 10, None, Some(43)),
        (ONE_STATION, "0,1,0", 3, None, Some(50)),
        (ONE_STATION, "0,1,0", 2, None, None),
        (TWO_STATIONS, "0,1,0", 10, None, Some(110)),
        (TWO_STATIONS, "0,1,0", 8, Some(60), Some(112)),
        (TWO_STATIONS, "0,1,0", 10, Some(54), None),
        (PLUG_TIME, "0,1,0", 10, None, Some(45)),
        (TWO_PLUG_TIMES, "0,1,0", 10, None, Some(118)),
        (RESERVE, "0,1,0", 7, None, Some(50)),
        (HOME_LEVEL, "0,1,0", 10, None, Some(60)),
        (TWO_CUSTOMERS, "0,1,2,0", 10, None, Some(13)),
        (TWO_CUSTOMERS, "0,2,0", 1, None, None),
        (THREE_CUSTOMERS, "0,3,1,2,0", 10, Some(14), Some(14)),
        (THREE_CUSTOMERS, "0,3,1,2,0", 10, Some(13), None),
        (THREE_CUSTOMERS, "0,1,2,0", 3, Some(11), Some(11)),
        (NO_STATION, "0,1,0", 10, None, Some(8)),
        (NO_STATION, "0,1,0", 1, None, None),
        (CONVERTED, "0,1,0", 16000, None, Some(11467048)),
        (CONVERTED, "0,1,0", 4999, None, None),
    ] {
        let times = times_of(alloc, text, word, start, limit);
        assert_eq!(rt; times, Some((want, want)));
    }
}
