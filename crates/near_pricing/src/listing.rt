//! Labels that are listed whatever their count, and mended until they are closed.
//!
//! Such a list may have fewer labels than one of real labels, since a label of count 0 covers
//! states of any count. It need not exist: where customers are served again and again in no time,
//! only the count ends a route.

ghost use Rattle.std.specs.Prelude.{◌<◌, ◌≤◌, All, IfOk, IfSome, OnOk};
ghost use Rattle.certificate_parts.specs.Limits.{greatest_bound};
ghost use Rattle.certificate_parts.specs.Ranges.{customer_count};
ghost use Rattle.ev_model.specs.Network.{node_count};
ghost use Rattle.label_steps.specs.Arrivals.{IsWithin};
ghost use Rattle.near_proof.specs.Closed.{AreClosed};
ghost use Rattle.near_proof.specs.Ranges.{AreAmong, NearLabelFits};

use crate::asked::Question;
use crate::steps::{Target, target_at};
use label_search::values_at;
use near_proof::{NearLabel, NearLabelFault};
use piece_fn::PieceFn;
use std::alloc::{AllocError, Global};

/// No label has earned more: the most that a proof may say.
const MOST_EARNED: u128 = 1 << 96;

/// Closed labels, by listing what the labels lack, so often at the most; `None` where that isn't
/// enough, or would be too much, or a step home earns more than it takes.
pub(crate) fn closed_with(
    alloc: Global,
    pricing: &Question<'_>,
    mut labels: Vec<NearLabel>,
    most: usize,
) -> Result<Option<Vec<NearLabel>>, AllocError>
    requires fit { All (NearLabelFits pricing.now.network) labels.items }
    ensures closed { IfOk result (λ answer. IfSome answer (λ all.
        AreClosed pricing.now.network pricing.now.terms all.items)) }
    ensures fit { IfOk result (λ answer. IfSome answer (λ all.
        All (NearLabelFits pricing.now.network) all.items)) }
{
    for _ in 0..most {
        let Some(fault) = pricing.first_fault(alloc, &labels)? else {
            return Ok(Some(labels));
        };
        let NearLabelFault::Step { label, node } = fault else {
            return Ok(None);
        };
        if !list_step(alloc, pricing, &mut labels, label, node)? {
            return Ok(None);
        }
    }
    Ok(None)
}

/// Lists labels, as before any service.
pub(crate) fn list_all(
    pricing: &Question<'_>,
    listed: &mut Vec<NearLabel>,
    mut labels: Vec<NearLabel>,
) -> Result<(), AllocError>
    requires labels { All (NearLabelFits pricing.now.network) labels.items }
    requires fit { All (NearLabelFits pricing.now.network) listed.old.items }
    ensures fit { OnOk result (All (NearLabelFits pricing.now.network) listed.new.items) }
{
    let _ = pricing;
    while let Some(mut label) = labels.pop() {
        label.count = 0;
        listed.push(label)?;
    }
    Ok(())
}

/// Lists the labels that the step of a listed label to a node leads to, and tells whether it leads
/// to any that may be listed.
fn list_step(
    alloc: Global,
    pricing: &Question<'_>,
    labels: &mut Vec<NearLabel>,
    number: usize,
    node: usize,
) -> Result<bool, AllocError>
    requires fit { All (NearLabelFits pricing.now.network) labels.old.items }
    ensures fit { OnOk result (All (NearLabelFits pricing.now.network) labels.new.items) }
{
    let count = labels.len();
    if number >= count {
        return Ok(false);
    }
    if node >= pricing.instance().nodes() {
        return Ok(false);
    }
    let from = &labels[number];
    let Some(target) = target_at(pricing, from, node) else {
        return Ok(false);
    };
    if target.earned > MOST_EARNED {
        return Ok(false);
    }
    let inst = pricing.instance();
    let values = values_at(alloc, inst, &from.value, from.node, node)?;
    let lists_some = !values.is_empty();
    list_values(pricing, labels, node, &target, values)?;
    Ok(lists_some)
}

/// Lists the labels with these values.
fn list_values(
    pricing: &Question<'_>,
    labels: &mut Vec<NearLabel>,
    node: usize,
    target: &Target,
    mut values: Vec<PieceFn>,
) -> Result<(), AllocError>
    requires node { node < node_count pricing.now.network }
    requires memory { AreAmong (customer_count pricing.now.network) target.now.memory }
    requires earned { target.now.earned ≤ greatest_bound }
    requires values { All (IsWithin pricing.now.network) values.items }
    requires fit { All (NearLabelFits pricing.now.network) labels.old.items }
    ensures fit { OnOk result (All (NearLabelFits pricing.now.network) labels.new.items) }
{
    while let Some(value) = values.pop() {
        labels.push(without_count(pricing, node, target, value))?;
    }
    Ok(())
}

/// The label at a node with a value, as before any service.
fn without_count(pricing: &Question<'_>, node: usize, target: &Target, value: PieceFn) -> NearLabel
    requires node { node < node_count pricing.now.network }
    requires memory { AreAmong (customer_count pricing.now.network) target.now.memory }
    requires earned { target.now.earned ≤ greatest_bound }
    requires value { IsWithin pricing.now.network value }
    ensures { NearLabelFits pricing.now.network result }
{
    let _ = pricing;
    // That the value has valid points is told by its calls.
    let _points = value.points();
    NearLabel {
        node,
        memory: target.memory,
        count: 0,
        earned: target.earned,
        value,
    }
}
