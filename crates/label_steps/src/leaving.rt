//! What is left of a value on leaving a node.

ghost use Rattle.std.specs.Prelude.{◌≡◌, ◌<◌, ◌≤◌, ◌∷◌, ℕ, [], IfOk, length};
ghost use Rattle.dominance.specs.LevelTimes.{IsLevel};
ghost use Rattle.ev_model.specs.Network.{node_count};
ghost use Rattle.piece_fn.specs.PieceFn.{level_times};
ghost use Rattle.label_steps.specs.Leaves.{AreLeft, CoverCharges};

use crate::arc::plugging_time;
use crate::paying::charged_where_it_pays;
use dominance::LabelValue;
use instance_reader::Instance;
use piece_fn::PieceFn;
use std::alloc::{AllocError, Global};

/// The values on leaving a node, by the value on arriving: first that value, and where the node has
/// a curve those after plugging in and charging.
///
/// A vehicle that passes through doesn't plug in; one that charges pays the time to plug in. Each
/// level of each value is the end of such a stop, and each stop is covered by one of the values.
pub fn departures(
    alloc: Global,
    inst: &Instance,
    arrived: PieceFn,
    node: usize,
) -> Result<Vec<PieceFn>, AllocError>
    requires node { node < node_count inst.now }
    requires levels { (level : ℕ) → IsLevel (level_times arrived) level →
        level ≤ inst.now.capacity }
    ensures some { IfOk result (λ values. 0 < length values.items) }
    ensures left { IfOk result (λ values. AreLeft inst.now node arrived values.items) }
    ensures covers { IfOk result (λ values. CoverCharges inst.now node arrived values.items) }
{
    let Some(curve) = inst.curve_at(node) else {
        return single(alloc, arrived);
    };
    let Some(plugged) = arrived.shift(0, plugging_time(inst, node), inst.scaled_limit())? else {
        return single(alloc, arrived);
    };
    let mut values = charged_where_it_pays(alloc, plugged, curve, inst.scaled_limit())?;
    values[0] = arrived;
    Ok(values)
}

/// One value.
fn single(alloc: Global, value: PieceFn) -> Result<Vec<PieceFn>, AllocError>
    ensures { IfOk result (λ values. values.items ≡ value ∷ []) }
{
    let mut values = Vec::new(alloc);
    values.push(value)?;
    Ok(values)
}
