//! The near sets of the customers.

ghost use Rattle.std.specs.Prelude.{◌≡◌, ◌<◌, ◌≤◌, IfOk, length, nat_lt};
ghost use Rattle.ev_model.specs.Network.{node_count};
ghost use Rattle.instance_reader.specs.Instance.{customer_nodes, most_customers};
ghost use Rattle.near_proof.specs.NearSets.{AreNearSets, belongs, IsNearSet, is_sooner, sooner_count};

use customer_sets::CustSet;
use instance_reader::Instance;
use std::alloc::{AllocError, Global};

/// The near set of each customer, by number: the customer with the `near` other customers of least
/// time from it, of two with the same time the one with the smaller number, or with all where there
/// are fewer. The only `Err` is want of memory.
pub fn near_sets(alloc: Global, inst: &Instance, near: usize) -> Result<Vec<CustSet>, AllocError>
    requires few { length (customer_nodes inst.now) ≤ most_customers }
    ensures { IfOk result (λ sets. AreNearSets inst.now near sets.items) }
{
    let customers = inst.customers();
    let mut sets = Vec::new(alloc);
    for node in customers {
        sets.push(near_set(inst, near, *node))?;
    }
    Ok(sets)
}

/// The near set of the customer at a node.
fn near_set(inst: &Instance, near: usize, node: usize) -> CustSet
    requires few { length (customer_nodes inst.now) ≤ most_customers }
    requires node { node < node_count inst.now }
    ensures { IsNearSet inst.now near node result }
{
    let customers = inst.customers();
    let mut set = CustSet::empty();
    for (number, other) in customers.iter().enumerate() {
        if !belongs(inst, near, node, *other) {
            continue;
        }
        set = set.with(number);
    }
    set
}

/// Whether one is the customer itself, or is among the others that come first.
fn belongs(inst: &Instance, near: usize, node: usize, other: usize) -> bool
    requires node { node < node_count inst.now }
    requires other { other < node_count inst.now }
    ensures { result ≡ belongs inst.now near node other }
{
    other == node || sooner_count(inst, node, other) < near
}

/// How many others come before one.
fn sooner_count(inst: &Instance, from: usize, other: usize) -> usize
    requires from { from < node_count inst.now }
    requires other { other < node_count inst.now }
    ensures { result ≡ sooner_count inst.now from other (customer_nodes inst.now) }
{
    let customers = inst.customers();
    let mut count = 0;
    for customer in customers {
        if is_sooner(inst, from, *customer, other) {
            count += 1;
        }
    }
    count
}

/// Whether one comes before another: it is another customer than the one from whom they are
/// reached, takes less time from there, or the same and has the smaller node.
fn is_sooner(inst: &Instance, from: usize, one: usize, other: usize) -> bool
    requires from { from < node_count inst.now }
    requires one { one < node_count inst.now }
    requires other { other < node_count inst.now }
    ensures { result ≡ is_sooner inst.now from other one }
{
    let (time, other_time) = (inst.time(from, one), inst.time(from, other));
    one != from && (time < other_time || time == other_time && one < other)
}
