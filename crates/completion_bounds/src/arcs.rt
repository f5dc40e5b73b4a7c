//! What arcs cost.
//!
//! A unit of level is worth the least time in which any station charges one. So an arc costs its
//! time and what the energy that it takes is worth, and charging costs nothing.

ghost use Rattle.std.specs.Prelude.{◌<◌};
ghost use Rattle.ev_model.specs.Network.{node_count};

use charge_curve::Scaled;
use instance_reader::Instance;
use std::alloc::{AllocError, Global};

/// The least scaled time in which any station charges a unit of level, 0 where none does.
pub(crate) fn least_rate(inst: &Instance) -> u64 {
    let mut least = None;
    for node in 0..inst.nodes() {
        if let Some(rate) = rate_at(inst, node) {
            least = Some(rate.min(least.unwrap_or(rate)));
        }
    }
    least.unwrap_or(0)
}

/// The scaled time in which the station at a node charges the first unit, which is the fastest.
fn rate_at(inst: &Instance, node: usize) -> Option<u64>
    requires { node < node_count inst.now }
{
    let breaks = inst.curve_at(node)?.breaks();
    let (level, time) = *breaks.get(0)?;
    let (next, later) = *breaks.get(1)?;
    later
        .saturating_sub(time)
        .checked_div(next.saturating_sub(level))
}

/// What the arcs cost, by both nodes.
pub(crate) fn arc_costs(
    alloc: Global,
    inst: &Instance,
    rate: u64,
) -> Result<Vec<Vec<u64>>, AllocError> {
    let mut costs = Vec::new(alloc);
    for from in 0..inst.nodes() {
        costs.push(costs_from(alloc, inst, rate, from)?)?;
    }
    Ok(costs)
}

/// What the arcs from a node cost.
fn costs_from(
    alloc: Global,
    inst: &Instance,
    rate: u64,
    from: usize,
) -> Result<Vec<u64>, AllocError>
    requires { from < node_count inst.now }
{
    let mut costs = Vec::new(alloc);
    for to in 0..inst.nodes() {
        costs.push(arc_cost(inst, rate, from, to))?;
    }
    Ok(costs)
}

/// What an arc costs, with the process time at its end.
fn arc_cost(inst: &Instance, rate: u64, from: usize, to: usize) -> u64
    requires left { from < node_count inst.now }
    requires reached { to < node_count inst.now }
{
    let travel = inst.denominator() * inst.time(from, to);
    let process = inst.denominator() * inst.service(to);
    let worth = rate.saturating_mul(inst.energy(from, to));
    travel.saturating_add(process).saturating_add(worth)
}

/// The least scaled time of an arc to a customer, with the process time there, or the greatest
/// number. Where a layer is no longer than that, no arc leads from a layer to a time before the
/// layer in which it ends.
pub(crate) fn least_time(inst: &Instance) -> u64 {
    let mut least = u64::MAX;
    for from in 0..inst.nodes() {
        for to in inst.customers() {
            if *to != from {
                let time = inst.time(from, *to) + inst.service(*to);
                least = least.min(inst.denominator().saturating_mul(time));
            }
        }
    }
    least
}

/// The least cost of an arc to a customer, or the greatest number.
pub(crate) fn least_cost(inst: &Instance, costs: &[Vec<u64>]) -> u64 {
    let mut least = u64::MAX;
    for (from, row) in costs.iter().enumerate() {
        least = least.min(least_from(inst, from, row));
    }
    least
}

/// The same of the arcs from a node.
fn least_from(inst: &Instance, from: usize, row: &[u64]) -> u64 {
    let mut least = u64::MAX;
    for (to, cost) in row.iter().enumerate() {
        if to < inst.nodes() && to != from && inst.customer_number(to).is_some() {
            least = least.min(*cost);
        }
    }
    least
}
