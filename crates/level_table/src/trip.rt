//! A route on an instance, and the entries of its table.

ghost use Rattle.std.specs.Prelude.{◌≡◌, ◌+◌, ◌-◌, ◌*◌, ◌<◌, ◌≤◌, ◌^◌, ◌⊎◌, length};
ghost use Rattle.ev_model.specs.Network.{node_count, scaled_limit};
ghost use Rattle.level_table.specs.Stations.{stations};
ghost use Rattle.level_table.specs.Places.{entry_count, index_of, IsHome, IsPlace, IsTrip, node_at, place_of};

use crate::place::Place;
use instance_reader::Instance;
use std::marker::Model;

/// A route on an instance, with the nodes that have a curve. Contracts see the network and the
/// route.
#[derive(Drop)]
pub(crate) struct Trip<'a> {
    pub(crate) inst: &'a Instance,
    pub(crate) route: &'a [usize],
    pub(crate) stations: &'a [usize],
}

impl<'a> Model for Trip<'a> {
    ghost use Rattle.level_table.specs.Journey.{IsSmallTrip, Journey, journey};

    ghost Value = { Journey };

    ghost view = { journey };

    ghost invariant = { IsSmallTrip };
}

impl<'a> Trip<'a> {
    /// The scaled limit on the time of the route.
    pub(crate) fn scaled_limit(&self) -> u64
        ensures value { result ≡ scaled_limit self.now.network }
        ensures small { result ≤ 10 ^ 18 }
    {
        self.inst.scaled_limit()
    }

    /// The number of arcs of the route: the index in it of the depot at its end.
    pub(crate) fn arcs(&self) -> usize
        ensures value { result ≡ length self.now.route - 1 }
        ensures trip { IsTrip self.now.network self.now.route }
    {
        self.route.len() - 1
    }

    /// The number of slots after each node of the route.
    pub(crate) fn slots(&self) -> usize
        ensures value { result ≡ length (stations self.now.network) + 1 }
        ensures trip { IsTrip self.now.network self.now.route }
    {
        self.stations.len() + 1
    }

    /// The number of whole levels.
    pub(crate) fn levels(&self) -> usize
        ensures value { result ≡ self.now.network.capacity + 1 }
        ensures small { result ≤ 10 ^ 9 + 1 }
    {
        self.inst.max_q() as usize + 1
    }

    /// The number of entries for places before the end of the route: two for each cell.
    pub(crate) fn entries(&self) -> usize
        ensures value { result ≡ entry_count self.now.network self.now.route }
        ensures trip { IsTrip self.now.network self.now.route }
    {
        self.arcs() * self.slots() * self.levels() * 2
    }

    /// The number of the entry that stands for a place.
    pub(crate) fn index_of(&self, place: Place) -> usize
        requires { IsPlace self.now.network self.now.route place
            ⊎ IsHome self.now.network self.now.route place }
        ensures value { result ≡ index_of self.now.network place }
        ensures within { result
            < entry_count self.now.network self.now.route + (self.now.network.capacity + 1) * 2 }
    {
        let row = place.passed * self.slots() + place.slot;
        let cell = row * self.levels() + place.level as usize;
        cell * 2 + place.entry()
    }

    /// The place that an entry stands for.
    pub(crate) fn place_of(&self, index: usize) -> Place
        requires { index < entry_count self.now.network self.now.route }
        ensures value { result ≡ place_of self.now.network index }
        ensures place { IsPlace self.now.network self.now.route result }
    {
        let cell = index / 2;
        let row = cell / self.levels();
        Place {
            passed: row / self.slots(),
            slot: row % self.slots(),
            level: (cell % self.levels()) as u64,
            plugged: index % 2 == 0,
        }
    }

    /// The node of a slot after the node of the route at `passed`.
    pub(crate) fn node_at(&self, passed: usize, slot: usize) -> usize
        requires passed { passed < length self.now.route }
        requires slot { slot ≤ length (stations self.now.network) }
        ensures value { result ≡ node_at self.now.network self.now.route passed slot }
        ensures known { result < node_count self.now.network }
    {
        if slot == 0 {
            self.route[passed]
        } else {
            self.stations[slot - 1]
        }
    }
}
