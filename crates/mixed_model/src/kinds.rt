//! The rules of the kinds: the labels of each are closed in its network.

ghost use Rattle.std.specs.Prelude.{◌<◌, ◌≤◌, IfOk, IfSome, IsSome, length};
ghost use Rattle.ev_model.specs.Network.{IsNetwork};
ghost use Rattle.instance_reader.specs.Instance.{customer_nodes, most_customers};
ghost use Rattle.mixed_model.specs.Tellings.{TellsKind, TellsKinds, ToldAs};
ghost use Rattle.mixed_model.specs.Kinds.{AreKinds, first_of, network_of};
ghost use Rattle.mixed_model.specs.Ranges.{MixedFits};

use crate::{MixedProof, MixedVerdict};
use certificate_check::check_labels;
use closed_lists::ClosedFault;
use customer_sets::Pairs;
use instance_reader::Instance;
use std::alloc::{AllocError, Global};

/// The first broken rule of the labels of the kinds, if there is one.
pub(crate) fn kind_fault(
    alloc: Global,
    kinds: &[Instance],
    p: &MixedProof,
) -> Result<Option<MixedVerdict>, AllocError>
    requires kinds { AreKinds kinds.now }
    requires few { length (customer_nodes (first_of kinds.now)) ≤ most_customers }
    requires fits { MixedFits kinds.now p.now }
    ensures { IfOk result (TellsKinds kinds.now p.now) }
{
    for kind in 0..kinds.len() {
        if let Some(fault) = fault_in(alloc, kinds, p, kind)? {
            return Ok(Some(fault));
        }
    }
    Ok(None)
}

/// The first broken rule of the labels of a kind, if there is one.
fn fault_in(
    alloc: Global,
    kinds: &[Instance],
    p: &MixedProof,
    kind: usize,
) -> Result<Option<MixedVerdict>, AllocError>
    requires kinds { AreKinds kinds.now }
    requires few { length (customer_nodes (first_of kinds.now)) ≤ most_customers }
    requires fits { MixedFits kinds.now p.now }
    requires known { kind < length kinds.now }
    ensures told { IfOk result (TellsKind kinds.now p.now kind) }
    ensures network { IsNetwork (network_of kinds.now kind) }
{
    let inst = &kinds[kind];
    // That the instance's network is one is told by its calls.
    let _nodes = inst.nodes();
    let pairs = Pairs::new(inst.customers().len());
    let labels = p.labels.as_slice()[kind].as_slice();
    match check_labels(alloc, inst, &pairs, p.weight, p.prices.as_slice(), labels) {
        Ok(()) => Ok(None),
        Err(fault) => told(kind, fault),
    }
}

/// The verdict on a kind with a broken rule.
fn told(kind: usize, fault: ClosedFault) -> Result<Option<MixedVerdict>, AllocError>
    ensures told { IfOk result (λ verdict. IfSome verdict (ToldAs kind fault)) }
    ensures some { IfOk result IsSome }
{
    match fault {
        ClosedFault::Start => Ok(Some(MixedVerdict::Start { kind })),
        ClosedFault::Step { label, node } => Ok(Some(MixedVerdict::Step { kind, label, node })),
        ClosedFault::End { label } => Ok(Some(MixedVerdict::End { kind, label })),
        ClosedFault::Memory => Err(AllocError),
    }
}
