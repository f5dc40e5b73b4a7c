//! What a label earns beyond what it takes.

ghost use Rattle.std.specs.Prelude.{◌<◌, ◌≤◌, ℕ};
ghost use Rattle.ev_model.specs.Network.{node_count};
ghost use Rattle.fleet_model.specs.Labels.{IsLevel};
ghost use Rattle.near_proof.specs.States.{label_of};

use dominance::LabelValue;
use instance_reader::Instance;
use label_steps::arrival;
use near_proof::NearLabel;
use std::alloc::AllocError;

/// What a label has earned at home, at its least time there, beyond that time, times the weight; 0
/// where it gets there by no step, or not by one that pays. By it the better of two routes is told;
/// no promise rests on it.
pub(crate) fn gain_at_home(
    inst: &Instance,
    weight: u64,
    label: &NearLabel,
) -> Result<u128, AllocError>
    requires node { label.now.node < node_count inst.now }
    requires levels { (level : ℕ) → IsLevel (label_of label.now) level →
        level ≤ inst.now.capacity }
{
    let least = inst.min_q().max(inst.home_q());
    let Some(value) = arrival(inst, &label.value, label.node, 0, least)? else {
        return Ok(0);
    };
    let (_, time) = value.least();
    Ok(
        label
            .earned
            .saturating_sub(u128::from(weight) * u128::from(time)),
    )
}
