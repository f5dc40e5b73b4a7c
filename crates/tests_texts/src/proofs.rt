//! Proofs of routes and near proofs are read, judged and written.

use crate::asserting::assert_text;
use instance_reader::{Instance, read_instance};
use near_proof::{NearVerdict, check_near, near_sets};
use near_text::{push_near, push_near_bound, push_near_verdict, read_near};
use route_plan::read_route;
use route_proof::{check_route, push_proof, push_route_verdict, read_proof};
use std::alloc::Global;
use worked_instances::ONE_STATION;

/// A proof of the route 0, 1, 0 on the instance with one station.
const ROUTE: &str =
    "evroute proof 1\nroute 0 v2+1 1 0\nlabels 5\nlabel 0 0 10:0\nlabel 1 1 4:20\nlabel 0 2 7:16 8:17 10:29\nlabel 1 2 2:26 8:32 10:44\nlabel 1 1 5:22 6:23 8:35\n";

/// A proof that no fleet plan on the instance with one station costs less than 43.
const NEAR: &str =
    "evroute near 1\nbound 43\nsection 1 5\nprices 43\nnear 1\nlabel 0 - 0 0 10:0\nlabel 1 1 1 43 4:20\nlabel 2 - 0 0 7:16 8:17 10:29\nlabel 2 1 1 43 2:26 8:32 10:44\nlabel 1 1 1 43 5:22 6:23 8:35\ntight 0 v2+1 1 0\n";

/// What is read of the proof of the route, as a text, and behind it the lines of its verdict.
fn route_again(alloc: Global, inst: &Instance) -> Option<Vec<u8>> {
    let Ok(route) = read_route(alloc, "0,1,0", inst) else {
        return None;
    };
    let route = route.as_slice();
    let start = inst.max_q();
    let proof = read_proof(alloc, inst, route, ROUTE.as_bytes()).ok()?;
    let verdict = check_route(alloc, inst, route, start, &proof).ok()?;
    let mut out = Vec::new(alloc);
    push_proof(alloc, &mut out, &proof).ok()?;
    push_route_verdict(alloc, &mut out, inst, Some(43), &verdict).ok()?;
    Some(out)
}

/// The same of the near proof, where the near set of the only customer is one.
fn near_again(alloc: Global, inst: &Instance) -> Option<Vec<u8>> {
    if inst.customers().len() > 128 {
        return None;
    }
    let proof = read_near(alloc, inst, NEAR.as_bytes()).ok()?;
    let verdict = check_near(alloc, inst, &proof).ok()?;
    if verdict != NearVerdict::Accepted || near_sets(alloc, inst, 0).ok()?.len() != 1 {
        return None;
    }
    let mut out = Vec::new(alloc);
    push_near(alloc, &mut out, inst, &proof).ok()?;
    push_near_verdict(alloc, &mut out, inst, &proof, &verdict).ok()?;
    push_near_bound(alloc, &mut out, inst, proof.bound).ok()?;
    Some(out)
}

/// The text with these lines behind it.
fn with_lines(alloc: Global, text: &str, lines: &str) -> Option<String> {
    format!(in alloc; "{text}{lines}").ok()
}

#[test]
fn proofs_are_read_judged_and_written(rt: HostRuntime) {
    let alloc = rt.alloc();
    let inst = read_instance(alloc, ONE_STATION.as_bytes()).expect(&rt, "an instance");
    let route = with_lines(alloc, ROUTE, "accepted\nleast 43/2\n").expect(&rt, "memory");
    assert_text(&rt, route_again(alloc, &inst), route.as_str());
    let near = with_lines(alloc, NEAR, "accepted\nbound 43/2\nbound 43/2\n").expect(&rt, "memory");
    assert_text(&rt, near_again(alloc, &inst), near.as_str());
}
