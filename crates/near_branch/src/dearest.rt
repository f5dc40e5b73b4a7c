//! What no plan is reckoned to cost more than, where none is held. The limit alone would be far too
//! much where an instance has none: the master problem reckons in fixed point. No clause rests on
//! this.

use instance_reader::Instance;
use near_completion::{Arc, Ground};

/// What no cheapest plan is reckoned to cost more than, in scaled time: on the ways to each
/// customer and home a longest arc and a longest stay for each station, and no more than the limit
/// allows.
pub(crate) fn most_cost(inst: &Instance, ground: &Ground) -> u128 {
    let customers = ground.customers();
    let stations = ground.depot().saturating_sub(customers);
    let stop = longest_arc(ground).saturating_add(longest_stay(inst));
    let leg = u128::from(stop).saturating_mul((stations as u128).saturating_add(1));
    let route = leg.saturating_mul(2).min(u128::from(ground.limit()));
    route.saturating_mul(customers as u128)
}

/// The longest time of an arc.
fn longest_arc(ground: &Ground) -> u64 {
    let mut longest = 0;
    for place in 0..=ground.depot() {
        longest = longest_of(ground.arcs_from(place)).max(longest);
    }
    longest
}

/// The longest time of these arcs.
fn longest_of(arcs: &[Option<Arc>]) -> u64 {
    let mut longest = 0;
    for arc in arcs {
        if let Some(arc) = arc {
            longest = arc.time.max(longest);
        }
    }
    longest
}

/// The longest time that charging takes somewhere, with the time to plug in.
fn longest_stay(inst: &Instance) -> u64 {
    let mut longest = 0;
    for node in 0..inst.nodes() {
        if let Some(curve) = inst.curve_at(node) {
            let full = curve.breaks().last().map_or(0, |point| point.1);
            let plug = inst.denominator().saturating_mul(inst.plug_at(node));
            longest = full.saturating_add(plug).max(longest);
        }
    }
    longest
}
