//! Plans by ruin and recreate: customers without routes of their own are served together, a seed
//! gives the same plan again, and plans of drawn instances cost what a plain enumeration finds.

use instance_reader::{Instance, read_instance};
use level_table::{instance_text, least_cost};
use route_improve::{Improved, check_large};
use route_plan::FleetPlan;
use ruin_recreate::{Effort, GoOn, Recreated, recreate};
use std::alloc::Global;

/// Two customers: the one can't be left for home, the other not be reached from there.
const PAIR: &str =
    r#"{"max_q":3,"css":[{"node_id":3,"cs_type":"fast"}],"breakpoints_by_type":[{"cs_type":"fast","time":[0,3],"charge":[0,3]}],"process_times":[0,0,0,0],"energy_matrix":[[0,1,9,9],[9,0,1,9],[1,9,0,9],[9,9,9,0]],"time_matrix":[[0,1,1,1],[1,0,1,1],[1,1,0,1],[1,1,1,0]]}"#;

/// The plan that is found from none, `None` where there is none.
fn plan_from_none(alloc: Global, inst: &Instance, effort: Effort, seed: u64) -> Option<FleetPlan> {
    let found = recreate(alloc, inst, None, effort, seed, &mut GoOn).ok()?;
    let Recreated {
        outcome,
        seen: _seen,
    } = found;
    match outcome {
        Improved::Plan(plan) => Some(plan),
        Improved::Alone(_) => None,
    }
}

/// What the plan costs that is found from none, `None` where there is none.
fn cost_from_none(alloc: Global, inst: &Instance, work: u64) -> Option<u128> {
    let effort = Effort { work, cycles: 2 };
    let plan = plan_from_none(alloc, inst, effort, 1)?;
    check_large(alloc, inst, &plan).ok()
}

#[test]
fn two_customers_without_own_routes_are_served_together(rt: HostRuntime) {
    let alloc = rt.alloc();
    let cost = match read_instance(alloc, PAIR.as_bytes()) {
        Ok(inst) => cost_from_none(alloc, &inst, 1000),
        Err(_) => None,
    };
    assert_eq!(rt; cost, Some(3));
}

/// The nodes and amounts of the plan that is found, route by route.
fn stops(alloc: Global, inst: &Instance, seed: u64) -> Option<Vec<(usize, u64)>> {
    let effort = Effort {
        work: 30_000,
        cycles: 1,
    };
    let plan = plan_from_none(alloc, inst, effort, seed)?;
    let mut stops = Vec::new(alloc);
    for route in plan.routes.as_slice() {
        for stop in route.stops.as_slice() {
            stops.push((stop.node, stop.added)).ok()?;
        }
    }
    Some(stops)
}

/// Whether a search finds the same plan twice on the instance that a number draws.
fn is_same(alloc: Global, number: u64) -> Option<bool> {
    let text = instance_text(alloc, number, 12, 2)?;
    let inst = read_instance(alloc, text.as_bytes()).ok()?;
    let first = stops(alloc, &inst, 7)?;
    let second = stops(alloc, &inst, 7)?;
    Some(first.as_slice() == second.as_slice())
}

#[test]
fn a_seed_gives_the_same_plan_again(rt: HostRuntime) {
    let alloc = rt.alloc();
    let mut plans = 0u64;
    for number in 0..12 {
        if let Some(is_same) = is_same(alloc, number) {
            assert!(rt; is_same, "instance {number}");
            plans = plans.saturating_add(1);
        }
    }
    assert!(rt; plans >= 2, "{plans}");
}

/// How many instances are drawn.
const INSTANCES: u64 = 24;

/// The cost of the plan that is found, and the least cost, on the instance that a number draws:
/// one to five customers and two stations, without a triangle inequality.
fn costs(alloc: Global, number: u64) -> Option<(Option<u128>, Option<u128>)> {
    let customers = number % 5 + 1;
    let text = instance_text(alloc, number, customers, 2)?;
    let inst = read_instance(alloc, text.as_bytes()).ok()?;
    let least = least_cost(alloc, &inst, inst.customers().len())?;
    Some((cost_from_none(alloc, &inst, 20_000), least))
}

#[test]
fn plans_of_small_instances_cost_the_least(rt: HostRuntime) {
    let alloc = rt.alloc();
    let mut plans = 0u64;
    for number in 0..INSTANCES {
        let told = costs(alloc, number);
        assert!(rt; told.is_some(), "instance {number}");
        if let Some((found, least)) = told {
            assert_eq!(rt; found, least, "instance {number}");
            if least.is_some() {
                plans = plans.saturating_add(1);
            }
        }
    }
    assert!(rt; plans >= 8, "{plans}");
}
