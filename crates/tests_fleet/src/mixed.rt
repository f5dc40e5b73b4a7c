//! Two kinds of vehicles: the plan and its proof, read back from their texts and judged.

ghost use Rattle.std.specs.Prelude.{◌≡◌, ◌<◌, ◌≤◌, IfSome, length, true};
ghost use Rattle.std.specs.List.{All};
ghost use Rattle.instance_reader.specs.Instance.{customer_nodes, most_customers};
ghost use Rattle.mixed_fleet.specs.Plans.{IsHeld};
ghost use Rattle.mixed_model.specs.Kinds.{AreKinds, first_of};

use crate::kinds::{are_of_a_fleet, short_kinds};
use instance_reader::Instance;
use mixed_fleet::{MixedOutcome, plan_mixed};
use mixed_model::{
    MixedProof, MixedRoute, MixedVerdict, check_mixed, check_mixed_plan, push_kinds_refusal,
    push_mixed_plan, read_mixed_plan,
};
use mixed_text::{push_mixed, push_mixed_verdict, read_mixed};
use std::alloc::Global;

/// What planning answers of these kinds, where memory isn't refused.
fn outcome_of(alloc: Global, kinds: &[Instance]) -> Option<MixedOutcome>
    requires kinds { AreKinds kinds.now }
    requires few { length (customer_nodes (first_of kinds.now)) ≤ most_customers }
    ensures { IfSome result (λ o. IfSome o.plan (IsHeld kinds.now)) }
{
    match plan_mixed(alloc, kinds) {
        Ok(outcome) => Some(outcome),
        Err(_) => None,
    }
}

/// The cost of what is read of the text of a plan.
fn cost_again(alloc: Global, kinds: &[Instance], plan: &[MixedRoute]) -> Option<u128>
    requires kinds { AreKinds kinds.now }
    requires few { length (customer_nodes (first_of kinds.now)) ≤ most_customers }
    requires held { IsHeld kinds.now plan.now }
{
    let mut text = Vec::new(alloc);
    push_mixed_plan(alloc, &mut text, Some(plan)).ok()?;
    let read = read_mixed_plan(alloc, kinds.len(), text.as_slice()).ok()??;
    judged_cost(kinds, read.as_slice())
}

/// The cost of routes by their judge.
fn judged_cost(kinds: &[Instance], plan: &[MixedRoute]) -> Option<u128>
    requires kinds { AreKinds kinds.now }
    requires few { length (customer_nodes (first_of kinds.now)) ≤ most_customers }
{
    if !are_known(kinds.len(), plan) {
        return None;
    }
    check_mixed_plan(kinds, plan).ok()
}

/// Whether each route is one of so many kinds.
fn are_known(count: usize, plan: &[MixedRoute]) -> bool
    ensures { result ≡ true → All (λ r. r.kind < count) plan.now }
{
    plan.iter().all(|route| route.kind < count)
}

/// The verdict on what is read of the text of a proof.
fn verdict_again(alloc: Global, kinds: &[Instance], proof: &MixedProof) -> Option<MixedVerdict>
    requires kinds { AreKinds kinds.now }
    requires few { length (customer_nodes (first_of kinds.now)) ≤ most_customers }
{
    let mut text = Vec::new(alloc);
    push_mixed(alloc, &mut text, kinds, proof).ok()?;
    let read = read_mixed(alloc, kinds, text.as_slice()).ok()?;
    check_mixed(alloc, kinds, &read).ok()
}

/// The cost and the bound, where the judges say so of plan and proof as they are read.
fn planned(alloc: Global, kinds: &[Instance]) -> Option<(u128, Option<u128>)> {
    if !are_of_a_fleet(kinds) {
        return None;
    }
    let outcome = outcome_of(alloc, kinds)?;
    let cost = match &outcome.plan {
        Some(plan) => cost_again(alloc, kinds, plan.as_slice())?,
        None => return None,
    };
    let verdict = verdict_again(alloc, kinds, &outcome.proof)?;
    if outcome.cost != Some(cost) || verdict != MixedVerdict::Accepted {
        return None;
    }
    Some((cost, outcome.proof.bound))
}

#[test]
fn each_customer_has_the_kind_that_is_nearer(rt: HostRuntime) {
    let kinds = short_kinds(rt.alloc()).expect(&rt, "two kinds");
    let found = planned(rt.alloc(), kinds.as_slice());
    assert_eq!(rt; found, Some((14, Some(14))));
}

/// The lines of a proof that is rejected, and of kinds that are refused.
fn lines(alloc: Global) -> Option<Vec<u8>> {
    let mut out = Vec::new(alloc);
    push_mixed_verdict(alloc, &mut out, &MixedVerdict::Start { kind: 1 }).ok()?;
    push_kinds_refusal(alloc, &mut out, 7).ok()?;
    Some(out)
}

#[test]
fn what_is_wrong_is_told_in_a_line(rt: HostRuntime) {
    let found = lines(rt.alloc()).expect(&rt, "memory");
    let wanted = "rejected mixed 1 kind 1\nrefused kinds 7\n";
    assert_eq!(rt; found.as_slice(), wanted.as_bytes());
}
