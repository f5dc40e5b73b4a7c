//! What a search that makes no effort would miss.

use crate::files::{run_with, shelf_with};
use evgap_run::{Never, Nobody};
use gap_search::{GapOptions, Recreation, close_gap};
use instance_reader::read_instance;
use std::alloc::Global;

/// A depot and six customers in a ring, of whom a route serves two neighbours at the most: three
/// pairs take 36 each, and the other three 37.
const RING: &str =
    r#"{"max_q":10,"css":[],"breakpoints_by_type":[],"process_times":[0,0,0,0,0,0,0],"energy_matrix":[[0,1,1,1,1,1,1],[1,0,1,1,1,1,1],[1,1,0,1,1,1,1],[1,1,1,0,1,1,1],[1,1,1,1,0,1,1],[1,1,1,1,1,0,1],[1,1,1,1,1,1,0]],"time_matrix":[[0,15,15,15,15,15,15],[15,0,6,30,30,30,7],[15,6,0,7,30,30,30],[15,30,7,0,6,30,30],[15,30,30,6,0,7,30],[15,30,30,30,7,0,6],[15,7,30,30,30,6,0]],"t_max":40}"#;

/// The dearer pairs of the ring. No relocation and no exchange of a customer makes them cheaper.
const DEARER_PAIRS: &str =
    "evroute plan 1\nroutes 3\nroute 0 1 6 0\nroute 0 2 3 0\nroute 0 4 5 0\n";

/// A depot and three customers, of whom the first shares a route with either of the others, which
/// takes 36, and each takes 30 alone. Prices that are fixed one by one are 30, 6 and 6; at best
/// they come to 66, which is what a plan costs.
const STAR: &str =
    r#"{"max_q":10,"css":[],"breakpoints_by_type":[],"process_times":[0,0,0,0],"energy_matrix":[[0,1,1,1],[1,0,1,1],[1,1,0,1],[1,1,1,0]],"time_matrix":[[0,15,15,15],[15,0,6,6],[15,6,0,30],[15,6,30,0]],"t_max":40}"#;

/// The bound that is found on the instance of a text; `None` says nothing.
fn bound_on(alloc: Global, text: &str) -> Option<u128> {
    let inst = read_instance(alloc, text.as_bytes()).ok()?;
    let options = GapOptions {
        recreation: Recreation {
            seed: 1,
            effort: None,
        },
        nodes: None,
        ends_moves: false,
    };
    let found = close_gap(
        alloc,
        &inst,
        None,
        options,
        &mut Never {},
        &mut Nobody::new(),
    )
    .ok()?;
    found.proof.bound()
}

#[test]
fn a_plan_that_no_move_makes_cheaper_gives_way_to_one_of_other_routes(rt: HostRuntime) {
    let alloc = rt.alloc();
    let mut shelf = shelf_with(alloc, RING, DEARER_PAIRS, "", &[]).expect(&rt, "memory");
    let line = "plan A O C --start S";
    let ended = run_with(alloc, line, &mut shelf, &[]).expect(&rt, "memory");
    assert!(rt; ended.1.as_slice().starts_with(b"cost 108/1\n"), "{line}");
}

#[test]
fn the_bound_is_above_that_of_prices_fixed_one_by_one(rt: HostRuntime) {
    let bound = bound_on(rt.alloc(), STAR).expect(&rt, "a bound");
    assert!(rt; bound > 60, "bound {bound}");
}
