//! The judge of near proofs.

ghost use Rattle.std.specs.Prelude.{◌≡◌, ◌↔◌, ◌<◌, ◌≤◌, IfOk, IsTrue, length};
ghost use Rattle.ev_model.specs.Network.{node_count};
ghost use Rattle.instance_reader.specs.Instance.{customer_nodes, most_customers};
ghost use Rattle.near_proof.specs.Accepted.{HasTight};
ghost use Rattle.near_proof.specs.Ranges.{NearFits};
ghost use Rattle.near_proof.specs.Truth.{IsTrue as IsTrueProof};
ghost use Rattle.near_proof.specs.Verdicts.{IsVerdict};
ghost use Rattle.near_proof.specs.declared.verdict.NearVerdict.TheVariants.{Accepted};
ghost use Rattle.near_proof.specs.Faults.{TellsFault};
ghost use Rattle.near_proof.specs.Judging.{TellsLoose, TellsTight, as_verdict, judged_in};

use crate::bound::bound_holds;
use crate::faults::{NearLabelFault, NearTerms, first_fault};
use crate::tight::is_tight;
use crate::{NearProof, NearVerdict};
use instance_reader::Instance;
use std::alloc::{AllocError, Global};

/// The verdict on a near proof: that it is accepted, or the first rule that it breaks. The only
/// `Err` is want of memory.
///
/// A label stands for the states (node, memory, count, earned, level, time) at its levels. It
/// covers a state at the same node where its memory is within the state's, its count is no greater,
/// and it has a level at least as high, at a time no later, whose weight times time less what it
/// has earned is no more than the state's. The rules:
///
/// 1. Some label covers the start: the depot with a full battery at time 0, before any service.
/// 2. Each step from a label to a customer or a station leads to a state that some label covers. A
///    step keeps the reserve and the limit on the route's time; a customer isn't remembered, and
///    there were fewer services than there are customers; at a station the vehicle charges any
///    whole amount, and pays the time to plug in where that isn't 0.
/// 3. No step home takes, times the weight, less than the label has earned, whatever its count. It
///    keeps the level at home besides.
/// 4. A bound that is a number is the price sum, at weight 1. With none the weight is 0, some price
///    is above 0 and no tight route is listed.
/// 5. Where the bound is a number, the route listed for each customer is tight: a near route that
///    serves the customer, and takes less than what it would earn were the price one higher.
///
/// Rules 2 and 3 are each tried over all labels before the next, least label and then least node
/// first; rule 5 names the least node. A near route is a feasible whole plan from full with as many
/// services as there are customers at most, at least one, and none of a customer who is remembered.
///
/// Where it is accepted, whoever wrote it, every near route takes, times the weight, at least what
/// it earns; every fleet plan in any fraction of a unit of charge costs at least the bound, and
/// there is none where it has no bound; and no single price of a proof with a bound can be raised
/// by one while some list of labels stays closed.
pub fn check_near(
    alloc: Global,
    inst: &Instance,
    proof: &NearProof,
) -> Result<NearVerdict, AllocError>
    requires few { length (customer_nodes inst.now) ≤ most_customers }
    requires fits { NearFits inst.now proof.now }
    ensures verdict { IfOk result (IsVerdict inst.now proof.now) }
    ensures shows { IfOk result (λ v. v ≡ Accepted → IsTrueProof inst.now proof.now) }
{
    // That the instance's network is one is told by its calls.
    let _nodes = inst.nodes();
    verdict_on(alloc, inst, proof)
}

/// That a near proof is accepted, or the first rule that it breaks.
fn verdict_on(alloc: Global, inst: &Instance, proof: &NearProof) -> Result<NearVerdict, AllocError>
    requires few { length (customer_nodes inst.now) ≤ most_customers }
    requires fits { NearFits inst.now proof.now }
    ensures { IfOk result (IsVerdict inst.now proof.now) }
{
    if let Some(fault) = fault_of(alloc, inst, proof)? {
        return Ok(verdict_by(fault));
    }
    if !bound_holds(proof) {
        return Ok(NearVerdict::Bound);
    }
    if proof.bound.is_none() {
        return Ok(NearVerdict::Accepted);
    }
    match loose_customer(alloc, inst, proof)? {
        Some(customer) => Ok(NearVerdict::Tight { customer }),
        None => Ok(NearVerdict::Accepted),
    }
}

/// The verdict on a near proof whose labels are not closed.
fn verdict_by(fault: NearLabelFault) -> NearVerdict
    ensures { result ≡ as_verdict fault }
{
    match fault {
        NearLabelFault::Start => NearVerdict::Start,
        NearLabelFault::Step { label, node } => NearVerdict::Step { label, node },
        NearLabelFault::End { label } => NearVerdict::End { label },
    }
}

/// The first place where the labels of a near proof are not closed.
fn fault_of(
    alloc: Global,
    inst: &Instance,
    proof: &NearProof,
) -> Result<Option<NearLabelFault>, AllocError>
    requires few { length (customer_nodes inst.now) ≤ most_customers }
    requires fits { NearFits inst.now proof.now }
    ensures { IfOk result (TellsFault inst.now (judged_in proof.now)) }
{
    let terms = NearTerms {
        weight: proof.weight,
        prices: proof.prices.as_slice(),
        sets: proof.sets.as_slice(),
    };
    first_fault(alloc, inst, terms, proof.labels.as_slice())
}

/// The first node whose customer has no tight route.
fn loose_customer(
    alloc: Global,
    inst: &Instance,
    proof: &NearProof,
) -> Result<Option<usize>, AllocError>
    requires few { length (customer_nodes inst.now) ≤ most_customers }
    requires fits { NearFits inst.now proof.now }
    ensures { IfOk result (TellsLoose inst.now proof.now) }
{
    for node in 0..inst.nodes() {
        if !is_settled(alloc, inst, proof, node)? {
            return Ok(Some(node));
        }
    }
    Ok(None)
}

/// Whether the node is no customer, or the customer there has a tight route.
fn is_settled(
    alloc: Global,
    inst: &Instance,
    proof: &NearProof,
    node: usize,
) -> Result<bool, AllocError>
    requires few { length (customer_nodes inst.now) ≤ most_customers }
    requires fits { NearFits inst.now proof.now }
    requires node { node < node_count inst.now }
    ensures { IfOk result (TellsTight inst.now proof.now node) }
{
    match inst.customer_number(node) {
        Some(number) => has_tight(alloc, inst, proof, number),
        None => Ok(true),
    }
}

/// Whether the route that is listed for a customer, by number, is tight.
fn has_tight(
    alloc: Global,
    inst: &Instance,
    proof: &NearProof,
    customer: usize,
) -> Result<bool, AllocError>
    requires few { length (customer_nodes inst.now) ≤ most_customers }
    requires fits { NearFits inst.now proof.now }
    ensures { IfOk result (λ tight. IsTrue tight ↔ HasTight inst.now proof.now customer) }
{
    match proof.tight.as_slice().get(customer) {
        Some(plan) => is_tight(alloc, inst, proof, customer, plan.stops.as_slice()),
        None => Ok(false),
    }
}
