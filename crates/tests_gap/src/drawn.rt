//! Plans and bounds against a plain enumeration, on instances that are drawn.

use crate::files::{run_with, shelf_with};
use evgap_run::{Never, Nobody, Status};
use gap_search::{GapOptions, GapOutcome, Improved, Recreation, close_gap};
use instance_reader::{Instance, read_instance};
use level_table::{instance_text, least_cost};
use plan_check::check_large;
use std::alloc::Global;
use std::process::Abort;

/// How many instances are drawn.
const INSTANCES: u64 = 20;

/// What is said of an instance.
#[derive(Clone, Copy)]
struct Compared {
    /// The cost of the plan that is held.
    cost: Option<u128>,
    bound: Option<u128>,
    /// The least cost by the enumeration.
    least: Option<u128>,
}

/// The cost of the plan that is held.
fn cost_of(alloc: Global, inst: &Instance, found: &GapOutcome) -> Option<u128> {
    match &found.plan {
        Improved::Plan(plan) => check_large(alloc, inst, plan).ok(),
        Improved::Alone(_) => None,
    }
}

/// What is said of the instance that a number draws: up to five customers, and up to two stations.
fn compare(alloc: Global, number: u64) -> Option<Compared> {
    let text = instance_text(alloc, number, number % 5 + 1, number / 5 % 3)?;
    let inst = read_instance(alloc, text.as_bytes()).ok()?;
    let options = GapOptions {
        recreation: Recreation {
            seed: number,
            effort: None,
        },
        nodes: None,
        ends_moves: false,
    };
    let found = close_gap(
        alloc,
        &inst,
        None,
        options,
        &mut Never {},
        &mut Nobody::new(),
    )
    .ok()?;
    Some(Compared {
        cost: cost_of(alloc, &inst, &found),
        bound: found.proof.bound(),
        least: least_cost(alloc, &inst, inst.customers().len())?,
    })
}

/// Whether a cost is at most another; `None` is above every number.
fn is_at_most(cost: Option<u128>, other: Option<u128>) -> bool {
    match (cost, other) {
        (_, None) => true,
        (None, Some(_)) => false,
        (Some(cost), Some(other)) => cost <= other,
    }
}

/// The bound is at most the least cost, and that at most what the plan costs, or the test fails.
fn assert_between(rt: &impl Abort, told: Compared, number: u64) {
    assert!(rt;
        is_at_most(told.bound, told.least),
        "bound of instance {number}"
    );
    assert!(rt;
        is_at_most(told.least, told.cost),
        "plan of instance {number}"
    );
}

#[test]
fn the_least_cost_is_between_bound_and_plan(rt: HostRuntime) {
    let mut closed = 0u64;
    for number in 0..INSTANCES {
        let told = compare(rt.alloc(), number).expect(&rt, "memory");
        assert_between(&rt, told, number);
        closed = closed.saturating_add(u64::from(told.cost == told.bound));
    }
    assert!(rt; closed > 0, "closed {closed}");
}

#[test]
fn what_is_written_of_drawn_instances_is_accepted(rt: HostRuntime) {
    let alloc = rt.alloc();
    for number in 0..INSTANCES {
        let text = instance_text(alloc, number, number % 5 + 1, number / 5 % 3).expect(
            &rt, "memory",
        );
        let mut shelf = shelf_with(alloc, text.as_str(), "", "", &[]).expect(&rt, "memory");
        let _ = run_with(alloc, "plan A O C", &mut shelf, &[]).expect(&rt, "memory");
        let told = run_with(alloc, "check A O C", &mut shelf, &[]).expect(&rt, "memory");
        assert_eq!(rt; told.0, Status::Done, "of instance {number}");
    }
}
