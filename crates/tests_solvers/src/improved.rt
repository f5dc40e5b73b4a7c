//! A worked instance: what no plan becomes, and what this becomes once more.

use instance_reader::{Instance, read_instance};
use route_improve::{Improved, check_large, improve, push_alone, push_improved};
use std::alloc::Global;
use worked_instances::{THREE_CUSTOMERS, TWO_CUSTOMERS};

/// The instance of a text with a limit.
fn limited(alloc: Global, text: &str, limit: u64) -> Option<Instance> {
    let inst = read_instance(alloc, text.as_bytes()).ok()?;
    inst.with_limit(limit).ok()
}

/// What no plan becomes, and what is put of it and of what it becomes once more.
fn from_none(alloc: Global, inst: &Instance) -> Option<Vec<u8>> {
    let mut out = Vec::new(alloc);
    let plan = match improve(alloc, inst, None).ok()? {
        Improved::Plan(plan) => plan,
        Improved::Alone(node) => {
            push_alone(alloc, &mut out, node).ok()?;
            return Some(out);
        }
    };
    let Improved::Plan(again) = improve(alloc, inst, Some(&plan)).ok()? else {
        return None;
    };
    let was = check_large(alloc, inst, &plan).ok()?;
    let cost = check_large(alloc, inst, &again).ok()?;
    push_improved(alloc, &mut out, inst, cost, Some(was)).ok()?;
    Some(out)
}

#[test]
fn no_plan_becomes_one_or_a_customer_out_of_reach_is_named(rt: HostRuntime) {
    let alloc = rt.alloc();
    for &(text, limit, lines) in &[
        (THREE_CUSTOMERS, 11, "cost 19/1\nwas 19/1\n"),
        (TWO_CUSTOMERS, 7, "alone 1\n"),
    ] {
        let inst = limited(alloc, text, limit).expect(&rt, "an instance");
        let put = from_none(alloc, &inst).expect(&rt, "memory");
        assert_eq!(rt; put.as_slice(), lines.as_bytes());
    }
}
