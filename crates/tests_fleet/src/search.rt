//! A worked instance whose gap is closed by branching, with and without a budget.

use bound_certificate::Certificate;
use certificate_check::{Verdict, check_certificate};
use ev_fleet::{Outcome, Progress, Watcher, plan_fleet, plan_fleet_watched};
use instance_reader::{Instance, read_instance};
use plan_check::check_fleet;
use std::alloc::Global;
use worked_instances::THREE_CUSTOMERS;

/// How often something was told.
#[derive(Clone, Copy)]
struct Heard {
    times: u64,
}

impl Watcher for Heard {
    fn watch(&mut self, _progress: Progress) {
        self.times = self.times.saturating_add(1);
    }
}

/// The instance of three customers, within a limit that two of them can be served in.
fn three_customers(alloc: Global) -> Option<Instance> {
    let inst = read_instance(alloc, THREE_CUSTOMERS.as_bytes()).ok()?;
    inst.with_limit(11).ok()
}

/// Whether a certificate is accepted.
fn is_accepted(alloc: Global, inst: &Instance, certificate: &Certificate) -> Option<bool> {
    if inst.customers().len() > 128 {
        return None;
    }
    if !certificate.fits(inst) {
        return None;
    }
    let verdict = check_certificate(alloc, inst, certificate).ok()?;
    Some(verdict == Verdict::Accepted)
}

/// The cost and the bound of an outcome and whether it stopped, where its plan costs so and its
/// certificate is accepted.
fn judged(
    alloc: Global,
    inst: &Instance,
    outcome: &Outcome,
) -> Option<(Option<u128>, Option<u128>, bool)> {
    if inst.customers().len() > 128 {
        return None;
    }
    let cost = check_fleet(inst, outcome.plan.as_ref()?).ok()?;
    if outcome.cost != Some(cost) || !is_accepted(alloc, inst, &outcome.certificate)? {
        return None;
    }
    Some((outcome.cost, outcome.certificate.bound, outcome.stopped))
}

/// What a search without a budget answers, and whether somebody was told of each node.
fn searched(alloc: Global) -> Option<((Option<u128>, Option<u128>, bool), bool)> {
    let inst = three_customers(alloc)?;
    if inst.customers().len() > 128 {
        return None;
    }
    let mut heard = Heard { times: 0 };
    let outcome = plan_fleet_watched(alloc, &inst, None, &mut heard).ok()?;
    Some((
        judged(alloc, &inst, &outcome)?,
        heard.times == outcome.nodes,
    ))
}

#[test]
fn a_gap_is_closed_by_branching(rt: HostRuntime) {
    let answer = (Some(19), Some(19), false);
    assert_eq!(rt; searched(rt.alloc()), Some((answer, true)));
}

/// What a search of one node answers.
fn searched_once(alloc: Global) -> Option<(Option<u128>, Option<u128>, bool)> {
    let inst = three_customers(alloc)?;
    if inst.customers().len() > 128 {
        return None;
    }
    let outcome = plan_fleet(alloc, &inst, Some(1)).ok()?;
    judged(alloc, &inst, &outcome)
}

/// The plan that is held then has a route of two customers, and the own route of the third.
#[test]
fn a_budget_of_one_node_stops_the_search(rt: HostRuntime) {
    assert_eq!(rt; searched_once(rt.alloc()), Some((Some(19), Some(17), true)));
}
