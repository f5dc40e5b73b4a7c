//! The places of an instance, and the arcs between them, as a search sees them.
//!
//! Levels are counted from the reserve. Times are scaled times, divided by a unit where they are so
//! large that sums of them might not fit: then what the search finds is a little less exact.

use crate::stations::Station;
use instance_reader::Instance;
use label_steps::{drive_time, plugging_time};
use std::alloc::{AllocError, Global};

/// No arc takes more than this, nor does charging.
const MOST_TIME: u64 = 1 << 44;

/// A time that is never reached.
pub(crate) const NEVER: u64 = 1 << 58;

/// An arc between two places.
#[derive(Clone, Copy)]
pub(crate) struct Arc {
    /// Its time, with the visit at its end.
    pub(crate) time: u64,
    pub(crate) energy: u64,
    /// What the least detour over a station takes, by time and what its energy is worth.
    pub(crate) detour: u64,
}

/// The arc where there is none.
const NO_ARC: Arc = Arc {
    time: NEVER,
    energy: NEVER,
    detour: NEVER,
};

/// The places of an instance: first the customers, by number, then the stations, then the depot,
/// where routes begin and end. A depot that is a station is two places.
#[derive(Drop)]
pub(crate) struct Ground {
    /// How many customers there are.
    pub(crate) customers: usize,
    /// The place of the depot, which is the last one.
    pub(crate) depot: usize,
    /// The node of each place.
    pub(crate) nodes: Vec<usize>,
    /// The arcs, by both places.
    arcs: Vec<Arc>,
    /// For each two customers, by both numbers, whether places beside the second are looked at for
    /// the first; empty where they all are.
    pub(crate) close: Vec<bool>,
    pub(crate) stations: Vec<Station>,
    /// The level of a full battery.
    pub(crate) full: u64,
    /// The limit on the time of a route.
    pub(crate) limit: u64,
    /// What a unit of level is worth, in time: the least time in which it is charged.
    pub(crate) worth: u64,
    /// The time by which times are divided.
    pub(crate) unit: u64,
}

impl Ground {
    pub(crate) fn new(alloc: Global, inst: &Instance) -> Result<Ground, AllocError> {
        let nodes = places(alloc, inst)?;
        let unit = longest(inst, &nodes) / MOST_TIME + 1;
        let stations = stations(alloc, inst, unit)?;
        let mut worth = if stations.is_empty() { 0 } else { u64::MAX };
        for station in &stations {
            worth = worth.min(station.least_rate());
        }
        let mut ground = Ground {
            customers: inst.customers().len(),
            depot: nodes.len().saturating_sub(1),
            arcs: arcs(alloc, inst, &nodes, unit)?,
            close: Vec::new(alloc),
            nodes,
            stations,
            full: inst.max_q() - inst.min_q(),
            limit: (inst.scaled_limit() / unit.max(1)).min(NEVER),
            worth,
            unit,
        };
        ground.find_detours();
        Ok(ground)
    }

    /// The node of a place, the depot's where there is none.
    pub(crate) fn node(&self, place: usize) -> usize {
        self.nodes.get(place).copied().unwrap_or(0)
    }

    /// The arc from a place to another.
    pub(crate) fn arc(&self, from: usize, to: usize) -> Arc {
        match self.arcs.get(self.index(from, to)) {
            Some(arc) => *arc,
            None => NO_ARC,
        }
    }

    /// Whether places beside another place are looked at for a customer: those beside the depot
    /// always are.
    pub(crate) fn are_close(&self, customer: usize, place: usize) -> bool {
        let index = customer.wrapping_mul(self.customers).wrapping_add(place);
        place >= self.customers || self.close.get(index).copied().unwrap_or(true)
    }

    /// Where the arc from a place to another stands, and what else there is for two places.
    pub(crate) fn index(&self, from: usize, to: usize) -> usize {
        from.wrapping_mul(self.nodes.len()).wrapping_add(to)
    }

    /// The place of a station by number.
    pub(crate) fn station_place(&self, number: usize) -> usize {
        self.customers.wrapping_add(number)
    }

    /// The time of an arc and what its energy is worth.
    pub(crate) fn cost(&self, arc: Arc) -> u64 {
        arc.time.wrapping_add(self.worth.wrapping_mul(arc.energy))
    }

    /// Whether the energy of the arc is no more than a full battery has.
    pub(crate) fn is_open(&self, arc: Arc) -> bool {
        arc.energy <= self.full
    }

    /// Finds the least detours.
    fn find_detours(&mut self) {
        for from in 0..self.nodes.len() {
            for to in 0..self.nodes.len() {
                let detour = self.least_detour(from, to);
                let index = self.index(from, to);
                if let Some(arc) = self.arcs.get_mut(index) {
                    arc.detour = detour;
                }
            }
        }
    }

    /// What the least detour over a station between two places takes.
    fn least_detour(&self, from: usize, to: usize) -> u64 {
        let direct = self.cost(self.arc(from, to));
        let mut least = NEVER;
        for number in 0..self.stations.len() {
            let station = self.station_place(number);
            let (there, on) = (self.arc(from, station), self.arc(station, to));
            if self.is_open(there) && self.is_open(on) {
                let over = self.cost(there).wrapping_add(self.cost(on));
                least = least.min(over.saturating_sub(direct));
            }
        }
        least
    }
}

/// The nodes of the places.
fn places(alloc: Global, inst: &Instance) -> Result<Vec<usize>, AllocError> {
    let mut nodes = Vec::new(alloc);
    nodes.extend_from_slice(inst.customers())?;
    for node in 0..inst.nodes() {
        if inst.curve_at(node).is_some() {
            nodes.push(node)?;
        }
    }
    nodes.push(0)?;
    Ok(nodes)
}

/// The longest time of an arc, of charging a whole battery and of plugging in.
fn longest(inst: &Instance, nodes: &[usize]) -> u64 {
    let mut longest = 1;
    for from in 0..inst.nodes() {
        longest = longest.max(plugging_time(inst, from));
        if let Some(curve) = inst.curve_at(from) {
            if let Some((_, time)) = curve.breaks().last() {
                longest = longest.max(*time);
            }
        }
        for to in nodes {
            if *to < inst.nodes() {
                longest = longest.max(drive_time(inst, from, *to));
            }
        }
    }
    longest
}

/// The stations, in order of their nodes.
fn stations(alloc: Global, inst: &Instance, unit: u64) -> Result<Vec<Station>, AllocError> {
    let mut stations = Vec::new(alloc);
    for node in 0..inst.nodes() {
        if let Some(curve) = inst.curve_at(node) {
            let plug = plugging_time(inst, node);
            stations.push(Station::new(alloc, curve, plug, inst.min_q(), unit)?)?;
        }
    }
    Ok(stations)
}

/// The arcs between places with these nodes, without detours. Those to the depot's place take the
/// level at home besides.
fn arcs(
    alloc: Global,
    inst: &Instance,
    nodes: &[usize],
    unit: u64,
) -> Result<Vec<Arc>, AllocError> {
    let mut arcs = Vec::with_capacity(alloc, nodes.len().saturating_mul(nodes.len()))?;
    let at_home = inst.home_q().saturating_sub(inst.min_q());
    for from in nodes {
        for (place, to) in nodes.iter().enumerate() {
            let mut arc = arc_between(inst, *from, *to, unit);
            if place.saturating_add(1) == nodes.len() {
                arc.energy = arc.energy.saturating_add(at_home);
            }
            arcs.push(arc)?;
        }
    }
    Ok(arcs)
}

/// The arc between two nodes. Nobody stays at a node.
fn arc_between(inst: &Instance, from: usize, to: usize, unit: u64) -> Arc {
    if from >= inst.nodes() || to >= inst.nodes() || from == to {
        return Arc {
            time: MOST_TIME,
            energy: inst.max_q().saturating_add(1),
            detour: NEVER,
        };
    }
    Arc {
        time: drive_time(inst, from, to) / unit.max(1),
        energy: inst.energy(from, to).min(inst.max_q().saturating_add(1)),
        detour: NEVER,
    }
}
