//! The visits of a route.

ghost use Rattle.std.specs.Prelude.{◌≡◌, ◌+◌, ◌*◌, ◌^◌, ◌<◌, ◌≤◌, IfOk};
ghost use Rattle.std.specs.List.{All};
ghost use Rattle.ev_model.specs.Feasible.{IsFeasible};
ghost use Rattle.ev_model.specs.Network.{IsNetwork, curve_at, energy, node_count};
ghost use Rattle.ev_model.specs.Time.{plugging_time};
ghost use Rattle.route_plan.specs.Walking.{charge_between};
ghost use Rattle.plan_schedule.specs.Visits.{IsWithin, kind_of, leaving_at, level_at, start_of, visit_at, visits_of};

use crate::schedule::{PlaceKind, Visit};
use ev_model::Stop;
use instance_reader::Instance;
use std::alloc::{AllocError, Global};

/// The visits of a route that is feasible from this level.
pub(crate) fn visits(
    alloc: Global,
    inst: &Instance,
    start: u64,
    stops: &[Stop],
) -> Result<Vec<Visit>, AllocError>
    requires start { start ≤ inst.now.capacity }
    requires feasible { IsFeasible inst.now 1 start stops.now }
    ensures value { IfOk result (λ v. v.items ≡ visits_of inst.now start stops.now) }
    ensures within { IfOk result (λ v. All (IsWithin inst.now) v.items) }
{
    let mut visits = Vec::with_capacity(alloc, stops.len())?;
    let mut before = start_at(inst, start);
    visits.push(before)?;
    for at in 1..stops.len() {
        before = visit(inst, &before, stops[at]);
        visits.push(before)?;
    }
    Ok(visits)
}

/// The first visit: the depot is left at time 0 with this level.
fn start_at(inst: &Instance, start: u64) -> Visit
    requires { start ≤ inst.now.capacity }
    ensures value { result ≡ start_of start }
    ensures within { IsWithin inst.now result }
    ensures network { IsNetwork inst.now }
{
    let _nodes = inst.nodes();
    Visit {
        node: 0,
        kind: PlaceKind::Depot,
        inserted: false,
        energy: 0,
        driving: 0,
        arrival: 0,
        level: start,
        service: 0,
        plugging: 0,
        charging: 0,
        charged: 0,
        level_left: start,
        leaving: 0,
    }
}

/// The visit of a stop, behind the one before it.
fn visit(inst: &Instance, before: &Visit, stop: Stop) -> Visit
    requires from { before.now.node < node_count inst.now }
    requires known { stop.node < node_count inst.now }
    requires reached { energy inst.now before.now.node stop.node ≤ before.now.level_left }
    requires full { level_at inst.now before.now stop + stop.added ≤ inst.now.capacity }
    requires in_time { leaving_at inst.now before.now stop ≤ 10 ^ 18 }
    ensures value { result ≡ visit_at inst.now before.now stop }
    ensures within { IsWithin inst.now result }
{
    let _full = inst.max_q();
    let used = inst.energy(before.node, stop.node);
    let driving = inst.denominator() * inst.time(before.node, stop.node);
    let service = inst.denominator() * inst.service(stop.node);
    let plugging = inst.denominator() * plugging_time(inst, stop);
    let arriving = before.level_left - used;
    let level_left = arriving + stop.added;
    let charging = charging_time(inst, stop.node, arriving, level_left);
    let arrival = before.leaving + driving;
    Visit {
        node: stop.node,
        kind: kind_of(inst, stop.node),
        inserted: stop.via,
        energy: used,
        driving,
        arrival,
        level: arriving,
        service,
        plugging,
        charging,
        charged: stop.added,
        level_left,
        leaving: arrival + service + plugging + charging,
    }
}

/// What a node is.
fn kind_of(inst: &Instance, node: usize) -> PlaceKind
    requires { node < node_count inst.now }
    ensures { result ≡ kind_of inst.now node }
{
    if node == 0 {
        return PlaceKind::Depot;
    }
    match inst.curve_at(node) {
        Some(_) => PlaceKind::Station,
        None => PlaceKind::Customer,
    }
}

/// The time of plugging in at a stop, in units of time: paid where something is charged.
fn plugging_time(inst: &Instance, stop: Stop) -> u64
    requires { stop.node < node_count inst.now }
    ensures value { result ≡ plugging_time inst.now stop }
    ensures scaled { inst.now.denominator * result ≤ 10 ^ 18 }
{
    if stop.added > 0 {
        inst.plug_at(stop.node)
    } else {
        0
    }
}

/// The scaled time of charging at a node between two levels.
pub(crate) fn charging_time(inst: &Instance, node: usize, before: u64, after: u64) -> u64
    requires node { node < node_count inst.now }
    requires order { before ≤ after }
    requires full { after ≤ inst.now.capacity }
    ensures value { result
        ≡ charge_between inst.now.denominator (curve_at inst.now node) before after }
    ensures small { result ≤ 10 ^ 18 }
{
    match inst.curve_at(node) {
        Some(curve) => curve.time_to(after).saturating_sub(curve.time_to(before)),
        None => 0,
    }
}
