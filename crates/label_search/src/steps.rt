//! What is left of a value behind a step.

ghost use Rattle.std.specs.Prelude.{◌<◌, ◌≤◌, ℕ, All, IfOk, IfSome, None, length};
ghost use Rattle.dominance.specs.LevelTimes.{IsLevel};
ghost use Rattle.ev_model.specs.Network.{node_count};
ghost use Rattle.label_search.specs.Steps.{IsInRange, IsLeft};
ghost use Rattle.label_steps.specs.Arrivals.{ArrivesAs};
ghost use Rattle.piece_fn.specs.PieceFn.{level_times};

use crate::resources::Resources;
use instance_reader::Instance;
use label_steps::{arrival, departures};
use piece_fn::PieceFn;
use std::alloc::{AllocError, Global};

/// The values on leaving a node that is gone to from a value at another one: first as the vehicle
/// arrives, and where the node has a curve those after plugging in and charging. There is none
/// where the battery or the limit does not let the vehicle come so far. The only `Err` is want of
/// memory.
pub fn values_at(
    alloc: Global,
    inst: &Instance,
    value: &PieceFn,
    from: usize,
    node: usize,
) -> Result<Vec<PieceFn>, AllocError>
    requires from { from < node_count inst.now }
    requires node { node < node_count inst.now }
    requires levels { (level : ℕ) → IsLevel (level_times value.now) level →
        level ≤ inst.now.capacity }
    ensures left { IfOk result (λ values.
        All (IsLeft inst.now value.now from node) values.items) }
    ensures some { IfOk result (λ values.
        (ArrivesAs inst.now value.now from node inst.now.reserve None → ⊥) →
        0 < length values.items) }
{
    let Some(arrived) = arrival(inst, value, from, node, inst.min_q())? else {
        return Ok(Vec::new(alloc));
    };
    departures(alloc, inst, arrived, node)
}

/// The value of a label as the vehicle arrives at a node, and leaves it if it charges nothing
/// there.
pub(crate) fn arrived_behind<R: Resources>(
    resources: &R,
    label: &R::Label,
    node: usize,
) -> Result<Option<PieceFn>, AllocError>
    requires range { IsInRange (R.space resources.now) label.now }
    requires node { node < node_count (R.space resources.now).network }
    ensures { IfOk result (λ arrived. IfSome arrived (IsLeft (R.space resources.now).network
        ((R.space resources.now).value label.now) ((R.space resources.now).node label.now) node)) }
{
    let (inst, from) = (resources.instance(), resources.node(label));
    arrival(inst, resources.value(label), from, node, inst.min_q())
}

/// The values on leaving a node that is gone to from a label.
pub(crate) fn values_behind<R: Resources>(
    alloc: Global,
    resources: &R,
    label: &R::Label,
    node: usize,
) -> Result<Vec<PieceFn>, AllocError>
    requires range { IsInRange (R.space resources.now) label.now }
    requires node { node < node_count (R.space resources.now).network }
    ensures left { IfOk result (λ values. All (IsLeft (R.space resources.now).network
        ((R.space resources.now).value label.now) ((R.space resources.now).node label.now) node)
        values.items) }
    ensures some { IfOk result (λ values. (R.space resources.now).can_step label.now node →
        0 < length values.items) }
{
    let (inst, from) = (resources.instance(), resources.node(label));
    values_at(alloc, inst, resources.value(label), from, node)
}
