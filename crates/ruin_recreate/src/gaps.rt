//! Which stations are of use between two places.

use crate::ground::{Ground, NEVER};
use std::alloc::{AllocError, Global};

/// A station between two places: how far it is there, and how far on.
#[derive(Clone, Copy)]
struct Between {
    number: usize,
    there: u64,
    there_energy: u64,
    on: u64,
    on_energy: u64,
    /// The time of both arcs, and what their energy is worth.
    cost: u64,
}

impl Between {
    /// Whether it is no farther than another station in each way.
    fn is_no_farther(&self, other: &Between) -> bool {
        self.there_energy <= other.there_energy
            && self.on_energy <= other.on_energy
            && self.there <= other.there
            && self.on <= other.on
    }
}

/// For each two places that are no stations the numbers of the stations between them that no other
/// one makes needless, the least detour first; and the level with which a vehicle can go on.
#[derive(Drop)]
pub(crate) struct Gaps {
    /// Where the stations of two places begin, by both.
    begins: Vec<usize>,
    numbers: Vec<usize>,
    /// By place, the least energy of an arc to a station or home.
    needs: Vec<u64>,
}

impl Gaps {
    pub(crate) fn new(alloc: Global, ground: &Ground) -> Result<Gaps, AllocError> {
        let faster = faster_stations(alloc, ground)?;
        let mut gaps = Gaps {
            begins: Vec::new(alloc),
            numbers: Vec::new(alloc),
            needs: Vec::new(alloc),
        };
        for from in 0..ground.nodes.len() {
            gaps.needs.push(need(ground, from))?;
            for to in 0..ground.nodes.len() {
                gaps.begins.push(gaps.numbers.len())?;
                if !is_station(ground, from) && !is_station(ground, to) && from != to {
                    gaps.add(alloc, ground, &faster, from, to)?;
                }
            }
        }
        gaps.begins.push(gaps.numbers.len())?;
        Ok(gaps)
    }

    /// The stations between two places, by number.
    pub(crate) fn stations(&self, ground: &Ground, from: usize, to: usize) -> &[usize] {
        let index = ground.index(from, to);
        let (Some(begin), Some(end)) = (
            self.begins.get(index),
            self.begins.get(index.wrapping_add(1)),
        ) else {
            return &[];
        };
        self.numbers.get(*begin..*end).unwrap_or(&[])
    }

    /// The level with which a vehicle can go on from a place.
    pub(crate) fn need(&self, place: usize) -> u64 {
        self.needs.get(place).copied().unwrap_or(0)
    }

    /// Adds the stations between two places.
    fn add(
        &mut self,
        alloc: Global,
        ground: &Ground,
        faster: &[bool],
        from: usize,
        to: usize,
    ) -> Result<(), AllocError> {
        let all = reachable(alloc, ground, from, to)?;
        let mut useful = Vec::new(alloc);
        for own in &all {
            if !is_needless(&all, faster, ground.stations.len(), own) {
                useful.push((own.cost, own.number))?;
            }
        }
        useful.sort()?;
        for (_, number) in &useful {
            self.numbers.push(*number)?;
        }
        Ok(())
    }
}

/// Whether a place is a station.
fn is_station(ground: &Ground, place: usize) -> bool {
    place >= ground.customers && place < ground.depot
}

/// The least energy of an arc from a place to a station or home.
fn need(ground: &Ground, from: usize) -> u64 {
    let mut least = NEVER;
    for place in ground.customers..ground.nodes.len() {
        if place != from {
            least = least.min(ground.arc(from, place).energy);
        }
    }
    least
}

/// For each two stations, by both numbers, whether the first is no slower than the second.
fn faster_stations(alloc: Global, ground: &Ground) -> Result<Vec<bool>, AllocError> {
    let mut faster = Vec::new(alloc);
    for one in &ground.stations {
        for other in &ground.stations {
            faster.push(one.is_no_slower(other))?;
        }
    }
    Ok(faster)
}

/// The stations that a full vehicle may reach from a place, and from which it may go on to another.
fn reachable(
    alloc: Global,
    ground: &Ground,
    from: usize,
    to: usize,
) -> Result<Vec<Between>, AllocError> {
    let mut all = Vec::with_capacity(alloc, ground.stations.len())?;
    for number in 0..ground.stations.len() {
        let place = ground.station_place(number);
        let (there, on) = (ground.arc(from, place), ground.arc(place, to));
        if ground.is_open(there) && ground.is_open(on) {
            all.push(Between {
                number,
                there: there.time,
                there_energy: there.energy,
                on: on.time,
                on_energy: on.energy,
                cost: ground.cost(there).wrapping_add(ground.cost(on)),
            })?;
        }
    }
    Ok(all)
}

/// Whether another station is no farther and no slower, of equal ones an earlier one.
fn is_needless(all: &[Between], faster: &[bool], count: usize, own: &Between) -> bool {
    for other in all {
        if other.cost <= own.cost && other.number != own.number && other.is_no_farther(own) {
            let no_slower = is_marked(faster, count, other.number, own.number);
            let as_good = own.is_no_farther(other)
                && is_marked(faster, count, own.number, other.number);
            if no_slower && (!as_good || other.number < own.number) {
                return true;
            }
        }
    }
    false
}

/// The mark of two numbers in a square of so many rows.
fn is_marked(marks: &[bool], count: usize, row: usize, column: usize) -> bool {
    let index = row.wrapping_mul(count).wrapping_add(column);
    marks.get(index).copied().unwrap_or(false)
}
