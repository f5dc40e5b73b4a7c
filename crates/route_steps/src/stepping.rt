//! What a label's value becomes at the next node.

ghost use Rattle.std.specs.Prelude.{◌≡◌, ◌≢◌, ◌<◌, ◌≤◌, ℕ, IfOk, length};
ghost use Rattle.dominance.specs.LevelTimes.{IsLevel};
ghost use Rattle.ev_model.specs.Network.{node_count};
ghost use Rattle.piece_fn.specs.PieceFn.{level_times};
ghost use Rattle.route_steps.specs.Steps.{AreSteps, CoverStops, MayGo, StandsAt};
ghost use Rattle.route_steps.specs.Trips.{least_level};
ghost use Rattle.route_steps.specs.declared.state.State.{State};

use crate::state::Place;
use instance_reader::Instance;
use label_steps::{arrival, departures};
use piece_fn::PieceFn;
use std::alloc::{AllocError, Global};

/// The values on leaving a place that is driven to from another, where the vehicle left with
/// `value`: first as it arrives, then those after plugging in and charging. There is none where the
/// battery or the limit does not let the vehicle come so far, and at the end of the route none
/// after charging.
///
/// Levels are in units of charge, times are scaled by the instance's denominator.
pub fn values_at(
    alloc: Global,
    inst: &Instance,
    route: &[usize],
    value: &PieceFn,
    from: Place,
    to: Place,
) -> Result<Vec<PieceFn>, AllocError>
    requires known { from.node < node_count inst.now }
    requires levels { (level : ℕ) → IsLevel (level_times value.now) level →
        level ≤ inst.now.capacity }
    requires next { MayGo inst.now route.now from.passed to.passed to.node }
    requires other { to.node ≢ from.node }
    ensures steps { IfOk result (λ values. (s : State) → StandsAt from value.now s →
        AreSteps inst.now route.now s to.passed to.node values.items) }
    ensures covers { IfOk result (λ values. (s : State) → StandsAt from value.now s →
        CoverStops inst.now route.now s to.passed to.node values.items) }
{
    let mut values = Vec::new(alloc);
    let least = least_level(inst, route, to.passed);
    let Some(arrived) = arrival(inst, value, from.node, to.node, least)? else {
        return Ok(values);
    };
    if to.passed + 1 < route.len() {
        return departures(alloc, inst, arrived, to.node);
    }
    values.push(arrived)?;
    Ok(values)
}

/// The least level on arriving somewhere once so much of the route was passed. It takes no memory.
fn least_level(inst: &Instance, route: &[usize], passed: usize) -> u64
    requires { 0 < length route.now }
    ensures { result ≡ least_level inst.now route.now passed }
{
    if passed == route.len() - 1 {
        inst.min_q().max(inst.home_q())
    } else {
        inst.min_q()
    }
}
