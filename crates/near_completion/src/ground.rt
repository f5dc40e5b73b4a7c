//! The places of an instance, and the arcs between them. No clause rests on this.

ghost use Rattle.std.specs.Prelude.{◌<◌, ◌≤◌};
ghost use Rattle.ev_model.specs.Network.{node_count};

use crate::needs::all_needs;
use crate::rate::Rate;
use instance_reader::Instance;
use label_steps::drive_time;
use std::alloc::{AllocError, Global};

/// An arc between two places.
#[derive(Clone, Copy)]
pub struct Arc {
    pub energy: u64,
    /// Its scaled time, with the visit at its end.
    pub time: u64,
    /// Its time and what its energy is worth.
    pub cost: u64,
}

/// The places of an instance: first the customers, by number, then the stations, then the depot,
/// where routes begin and end. A depot that is a station is two places. A place that isn't there
/// has no arcs.
#[derive(Drop)]
pub struct Ground {
    customers: usize,
    /// How many places may be stepped to: customers and stations.
    depot: usize,
    /// The node of each place.
    nodes: Vec<usize>,
    /// The arcs, by both places.
    arcs: Vec<Vec<Option<Arc>>>,
    /// The level with which a vehicle can go on, by place.
    needs: Vec<u64>,
    rate: Rate,
    limit: u64,
    full: u64,
    reserve: u64,
    home_level: u64,
}

impl Ground {
    /// The places of an instance.
    pub fn new(alloc: Global, inst: &Instance) -> Result<Ground, AllocError> {
        let nodes = places(alloc, inst)?;
        let rate = Rate::new(inst);
        let arcs = all_arcs(alloc, inst, rate, &nodes)?;
        let home_level = inst.min_q().max(inst.home_q());
        let customers = inst.customers().len();
        let needs = all_needs(alloc, &arcs, customers, inst.min_q(), home_level)?;
        Ok(Ground {
            customers,
            depot: arcs.len().max(1) - 1,
            nodes,
            arcs,
            needs,
            rate,
            limit: inst.scaled_limit(),
            full: inst.max_q(),
            reserve: inst.min_q(),
            home_level,
        })
    }

    /// How many customers there are.
    pub fn customers(&self) -> usize {
        self.customers
    }

    /// The place of the depot, which is how many places may be stepped to.
    pub fn depot(&self) -> usize {
        self.depot
    }

    /// Whether a place is a customer's.
    pub fn is_customer(&self, place: usize) -> bool {
        place < self.customers
    }

    /// The node of a place, the depot's where there is none.
    pub fn node(&self, place: usize) -> usize {
        self.nodes.get(place).copied().unwrap_or(0)
    }

    /// The arcs from a place, by the places where they end; `None` where the nodes are the same, or
    /// no full battery and no limit is enough.
    pub fn arcs_from(&self, place: usize) -> &[Option<Arc>] {
        match self.arcs.get(place) {
            Some(arcs) => arcs.as_slice(),
            None => &[],
        }
    }

    /// The arc from a place to another, if it can be driven.
    pub fn arc(&self, from: usize, to: usize) -> Option<Arc> {
        match self.arcs_from(from).get(to) {
            Some(arc) => *arc,
            None => None,
        }
    }

    /// The level that a vehicle has to have at a place, so that it can go on.
    pub fn need(&self, place: usize) -> u64 {
        self.needs.get(place).copied().unwrap_or(0)
    }

    /// The arc home from a place, and the level that a vehicle has to have there to take it; `None`
    /// at the depot's node.
    pub fn way_home(&self, place: usize) -> Option<(u64, Arc)> {
        let arc = self.arc(place, self.depot)?;
        let level = arc.energy.checked_add(self.home_level)?;
        Some((level, arc))
    }

    /// What a unit of level is worth.
    pub fn rate(&self) -> Rate {
        self.rate
    }

    /// The level of a full battery.
    pub fn full(&self) -> u64 {
        self.full
    }

    /// The least level on arriving at a place.
    pub fn reserve(&self) -> u64 {
        self.reserve
    }

    /// The scaled limit on the time of a route.
    pub fn limit(&self) -> u64 {
        self.limit
    }

    /// The least cost of an arc to a customer, the greatest number where there is none.
    pub(crate) fn least_cost(&self) -> u64 {
        let mut least = u64::MAX;
        for arcs in &self.arcs {
            least = least.min(least_to(arcs, self.customers));
        }
        least
    }
}

/// The least cost of arcs to the first so many places.
fn least_to(arcs: &[Option<Arc>], customers: usize) -> u64 {
    let mut least = u64::MAX;
    for arc in arcs.iter().take(customers) {
        if let Some(arc) = arc {
            least = least.min(arc.cost);
        }
    }
    least
}

/// The nodes of the places.
fn places(alloc: Global, inst: &Instance) -> Result<Vec<usize>, AllocError> {
    let mut nodes = Vec::new(alloc);
    nodes.extend_from_slice(inst.customers())?;
    for node in 0..inst.nodes() {
        if inst.curve_at(node).is_some() {
            nodes.push(node)?;
        }
    }
    nodes.push(0)?;
    Ok(nodes)
}

/// The arcs between places with these nodes.
fn all_arcs(
    alloc: Global,
    inst: &Instance,
    rate: Rate,
    nodes: &[usize],
) -> Result<Vec<Vec<Option<Arc>>>, AllocError> {
    let mut all = Vec::with_capacity(alloc, nodes.len())?;
    for from in nodes {
        all.push(arcs_from(alloc, inst, rate, *from, nodes)?)?;
    }
    Ok(all)
}

/// The arcs from a node to places with these nodes.
fn arcs_from(
    alloc: Global,
    inst: &Instance,
    rate: Rate,
    from: usize,
    nodes: &[usize],
) -> Result<Vec<Option<Arc>>, AllocError> {
    let mut arcs = Vec::with_capacity(alloc, nodes.len())?;
    for to in nodes {
        arcs.push(arc_between(inst, rate, from, *to))?;
    }
    Ok(arcs)
}

/// The arc between two nodes, if they are two and a full battery and the limit are enough.
fn arc_between(inst: &Instance, rate: Rate, from: usize, to: usize) -> Option<Arc> {
    if from == to || from >= inst.nodes() || to >= inst.nodes() {
        return None;
    }
    let energy = inst.energy(from, to);
    let time = drive_time(inst, from, to);
    if energy > inst.max_q() || time > inst.scaled_limit() {
        return None;
    }
    let worth = u64::try_from(rate.worth(energy)).ok()?;
    let cost = time.checked_add(worth)?;
    Some(Arc { energy, time, cost })
}
