//! Proofs of routes: each is accepted by the judge, and lists what the search for the plan found.

use crate::both::{instance_of, route_of};
use fixed_certificate::{RouteVerdict, check_route, prove_route};
use frvcp_labels::{reachable_states, solve_with_labels};
use instance_reader::Instance;
use std::alloc::Global;
use worked_instances::{ONE_STATION, THREE_CUSTOMERS, TWO_CUSTOMERS};

/// Whether the proof of a route from a level is accepted and lists what the search found, and there
/// is somewhere that a vehicle may come to; and whether it has a plan. `None` where there is no such
/// route or memory is refused.
fn proved(alloc: Global, inst: &Instance, word: &str, start: u64) -> Option<(bool, bool)> {
    let route = route_of(alloc, inst, word, start)?;
    let route = route.as_slice();
    let proof = prove_route(alloc, inst, route, start).ok()?;
    let verdict = check_route(alloc, inst, route, start, &proof).ok()?;
    let listed = solve_with_labels(alloc, inst, route, start)
        .ok()?
        .states
        .len();
    let all = reachable_states(alloc, inst, route, start).ok()?.len();
    let is_right = verdict == RouteVerdict::Accepted && proof.labels.len() == listed && all > 0;
    Some((is_right, proof.plan.is_some()))
}

#[test]
fn proofs_of_worked_routes_are_accepted(rt: HostRuntime) {
    for &(text, word, start, has_plan) in &[
        (ONE_STATION, "0,1,0", 10, true),
        (ONE_STATION, "0,1,0", 2, false),
        (TWO_CUSTOMERS, "0,2,0", 1, false),
        (THREE_CUSTOMERS, "0,3,1,2,0", 10, true),
    ] {
        let inst = instance_of(rt.alloc(), text, None).expect(&rt, "an instance");
        let found = proved(rt.alloc(), &inst, word, start);
        assert_eq!(rt; found, Some((true, has_plan)));
    }
}
