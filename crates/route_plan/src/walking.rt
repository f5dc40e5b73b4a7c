//! The walk along a plan, which judges it.

ghost use Rattle.std.specs.Prelude.{◌≡◌, ◌<◌, ◌≤◌, ◌^◌, IfErr, IfOk, true};
ghost use Rattle.ev_model.specs.Feasible.{IsFeasible};
ghost use Rattle.ev_model.specs.Network.{curve_at, node_count, scaled_limit};
ghost use Rattle.ev_model.specs.Time.{time_of};
ghost use Rattle.route_plan.specs.FirstPlaces.{ends_pass};
ghost use Rattle.route_plan.specs.Walking.{charge_between, driving_time, end_level, is_end, least_level, step_at, walk_along, walk_on};

use crate::walks::{Walk, WalkFault};
use ev_model::Stop;
use instance_reader::Instance;

/// Walks along the stops of a whole plan, from a level at the start. It takes no memory.
///
/// The rule on the ends is tried first, over the whole plan; then the stops are taken in order, and
/// at each the other rules in the order of [`WalkFault`]. So the walk comes to its end exactly
/// where the plan is feasible.
pub fn walk(inst: &Instance, start: u64, stops: &[Stop]) -> Result<Walk, WalkFault>
    ensures exact { result ≡ walk_along inst.now start stops.now }
    ensures feasible { IfOk result (λ w. IsFeasible inst.now 1 start stops.now) }
    ensures time { IfOk result (λ w. w.time ≡ time_of inst.now 1 start stops.now) }
    ensures last { IfOk result (λ w. w.last ≡ end_level inst.now start stops.now) }
    ensures infeasible { IfErr result (λ fault. IsFeasible inst.now 1 start stops.now → ⊥) }
{
    if !both_ends(stops) {
        return Err(WalkFault::Ends);
    }
    walk_on(inst, start, stops)
}

/// Walks along the stops of a plan whose ends are at the depot.
fn walk_on(inst: &Instance, start: u64, stops: &[Stop]) -> Result<Walk, WalkFault>
    requires { ends_pass is_end stops.now ≡ true }
    ensures { result ≡ walk_on inst.now start stops.now }
{
    let count = inst.nodes();
    let mut from = 0;
    let mut reached = Walk {
        time: 0,
        last: start,
    };
    for at in 1..stops.len() {
        let stop = stops[at];
        if stop.node >= count {
            return Err(WalkFault::Unknown { at });
        }
        let is_last = at + 1 == stops.len();
        reached = step(inst, is_last, from, reached, at, stop)?;
        from = stop.node;
    }
    Ok(reached)
}

/// Whether the first and the last of at least two stops are ends.
fn both_ends(stops: &[Stop]) -> bool
    ensures { result ≡ ends_pass is_end stops.now }
{
    if stops.len() < 2 {
        return false;
    }
    is_end(stops[0]) && is_end(stops[stops.len() - 1])
}

/// Whether a stop is at the depot, was not inserted and charges nothing.
fn is_end(stop: Stop) -> bool
    ensures { result ≡ is_end stop }
{
    stop.node == 0 && !stop.via && stop.added == 0
}

/// The level and the time on leaving a stop at a node of the instance, or the first rule that the
/// stop breaks.
fn step(
    inst: &Instance,
    is_last: bool,
    from: usize,
    before: Walk,
    at: usize,
    stop: Stop,
) -> Result<Walk, WalkFault>
    requires from { from < node_count inst.now }
    requires known { stop.node < node_count inst.now }
    ensures { result ≡ step_at inst.now is_last from before.last before.time at stop }
{
    if stop.node == from {
        return Err(WalkFault::Again { at });
    }
    let needed = inst.energy(from, stop.node);
    if before.last < needed + least_level(inst, is_last) {
        return Err(WalkFault::Empty { at });
    }
    if inst.curve_at(stop.node).is_none() && (stop.via || stop.added > 0) {
        return Err(WalkFault::NotStation { at });
    }
    let arriving = before.last - needed;
    if arriving > inst.max_q() || stop.added > inst.max_q() - arriving {
        return Err(WalkFault::Full { at });
    }
    let last = arriving + stop.added;
    let driving = driving_time(inst, from, stop);
    let charging = charging_time(inst, stop.node, arriving, last);
    let time = before.time as u128 + driving as u128 + charging as u128;
    if time > (inst.denominator() * inst.limit()) as u128 {
        return Err(WalkFault::Late { at });
    }
    Ok(Walk {
        time: time as u64,
        last,
    })
}

/// The least level on arriving at a stop: the reserve, and at the last stop the level at home too.
fn least_level(inst: &Instance, is_last: bool) -> u64
    ensures value { result ≡ least_level inst.now is_last }
    ensures small { result ≤ 10 ^ 9 }
{
    if is_last {
        inst.min_q().max(inst.home_q())
    } else {
        inst.min_q()
    }
}

/// The scaled time of an arc and of the visit at its end, without charging: plugging in takes time
/// where something is charged, not where the vehicle passes through.
fn driving_time(inst: &Instance, from: usize, stop: Stop) -> u64
    requires from { from < node_count inst.now }
    requires known { stop.node < node_count inst.now }
    ensures { result ≡ driving_time inst.now from stop }
{
    let driving = inst.time(from, stop.node) + inst.service(stop.node);
    let plugging = if stop.added > 0 {
        inst.plug_at(stop.node)
    } else {
        0
    };
    inst.denominator() * (driving + plugging)
}

/// The scaled time of charging at a node between two levels.
fn charging_time(inst: &Instance, node: usize, before: u64, after: u64) -> u64
    requires node { node < node_count inst.now }
    requires order { before ≤ after }
    requires full { after ≤ inst.now.capacity }
    ensures { result ≡ charge_between inst.now.denominator (curve_at inst.now node) before after }
{
    match inst.curve_at(node) {
        Some(curve) => curve.time_to(after).saturating_sub(curve.time_to(before)),
        None => 0,
    }
}
