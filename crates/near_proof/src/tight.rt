//! Tight routes.

ghost use Rattle.std.specs.Prelude.{◌↔◌, ◌*◌, ◌<◌, ◌^◌, ◌≤◌, [], IfOk, IsTrue, length};
ghost use Rattle.std.specs.List.{All};
ghost use Rattle.ev_model.specs.Fleet.{times_in};
ghost use Rattle.fleet_model.specs.Places.{numbers_of};
ghost use Rattle.instance_reader.specs.Instance.{customer_nodes, most_customers};
ghost use Rattle.near_proof.specs.Accepted.{IsTight, terms_of};
ghost use Rattle.near_proof.specs.Ranges.{NearFits};
ghost use Rattle.near_proof.specs.Routes.{KeepsMemory};
ghost use Rattle.near_proof.specs.Terms.{earned_by};

use crate::memory::remembered;
use crate::{NearProof, earned_by, numbers_of, times_in};
use customer_sets::CustSet;
use instance_reader::Instance;
use plan_check::stray_stop;
use route_plan::{Stop, walk};
use std::alloc::{AllocError, Global};

/// Whether the stops are a tight route for a customer, by number: a near route that serves the
/// customer, and would earn more than it takes were the customer's price one higher.
pub(crate) fn is_tight(
    alloc: Global,
    inst: &Instance,
    proof: &NearProof,
    customer: usize,
    stops: &[Stop],
) -> Result<bool, AllocError>
    requires few { length (customer_nodes inst.now) ≤ most_customers }
    requires fits { NearFits inst.now proof.now }
    ensures { IfOk result (λ tight.
        IsTrue tight ↔ IsTight inst.now (terms_of proof.now) customer stops.now) }
{
    let Ok(end) = walk(inst, inst.max_q(), stops) else {
        return Ok(false);
    };
    let numbers = numbers_of(alloc, inst, stops)?;
    if stray_stop(inst, stops).is_some() {
        return Ok(false);
    }
    if numbers.len() > inst.customers().len() {
        return Ok(false);
    }
    let visits = times_in(&numbers, customer);
    if visits == 0 {
        return Ok(false);
    }
    if !keeps_memory(proof.sets.as_slice(), &numbers) {
        return Ok(false);
    }
    let earned = earned_by(proof.prices.as_slice(), &numbers);
    Ok(u128::from(end.time) < earned + visits as u128)
}

/// Whether nobody is served who is remembered.
fn keeps_memory(sets: &[CustSet], customers: &[usize]) -> bool
    requires known { All (λ c. c < length sets.now) customers.now }
    requires few { length sets.now ≤ 128 }
    ensures { IsTrue result ↔ KeepsMemory sets.now [] customers.now }
{
    let mut memory = CustSet::empty();
    for customer in customers {
        if memory.has(*customer) {
            return false;
        }
        memory = remembered(memory, sets[*customer], *customer);
    }
    true
}
