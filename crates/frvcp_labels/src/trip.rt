//! A route to be driven.
ghost use Rattle.std.specs.Prelude.{◌≡◌, ◌+◌, ◌-◌, ◌*◌, ◌^◌, ◌<◌, ◌≤◌, length, slice_index};
ghost use Rattle.ev_model.specs.Network.{energy, node_count, scaled_limit};
ghost use Rattle.label_steps.specs.Arrivals.{drive_time};
ghost use Rattle.route_steps.specs.Trips.{IsTrip};

use crate::rest::Rest;
use instance_reader::Instance;
use label_steps::drive_time;
use std::marker::Model;

/// A route on an instance, with the nodes that have a curve, the charge that the vehicle starts
/// with and a bound on the rest of each way. Contracts see the network, the route and that charge.
#[derive(Drop)]
pub(crate) struct Trip<'a> {
    pub(crate) inst: &'a Instance,
    pub(crate) route: &'a [usize],
    pub(crate) stations: &'a [usize],
    pub(crate) start: u64,
    pub(crate) rest: &'a Rest,
}

impl<'a> Model for Trip<'a> {
    ghost use Rattle.route_steps.specs.Trips.{Journey};

    ghost Value = { Journey };

    ghost use Rattle.frvcp_labels.specs.TripView.{journey, IsSoundTrip};

    ghost view = { journey };

    ghost invariant = { IsSoundTrip };
}

impl<'a> Trip<'a> {
    /// The scaled limit on the time of the route.
    pub(crate) fn scaled_limit(&self) -> u64
        ensures value { result ≡ scaled_limit self.now.network }
        ensures small { result ≤ 10 ^ 18 }
    {
        self.inst.scaled_limit()
    }

    /// The index in the route of its end.
    pub(crate) fn end(&self) -> usize
        ensures value { result ≡ length self.now.route - 1 }
        ensures trip { IsTrip self.now.network self.now.route }
    {
        self.route.len() - 1
    }

    /// The level of a full battery.
    pub(crate) fn capacity(&self) -> u64
        ensures { result ≡ self.now.network.capacity }
    {
        self.inst.max_q()
    }

    /// The node of the route with an index.
    pub(crate) fn node_at(&self, index: usize) -> usize
        requires { index < length self.now.route }
        ensures { result ≡ slice_index self.now.route index }
    {
        let route = self.route;
        route[index]
    }

    /// The scaled time of an arc and of the visit at its end, without plugging in and charging.
    pub(crate) fn drive_time(&self, from: usize, to: usize) -> u64
        requires left { from < node_count self.now.network }
        requires reached { to < node_count self.now.network }
        ensures value { result ≡ drive_time self.now.network from to }
        ensures small { result ≤ 2 * 10 ^ 18 }
    {
        drive_time(self.inst, from, to)
    }

    /// The energy that an arc takes.
    pub(crate) fn energy(&self, from: usize, to: usize) -> u64
        requires left { from < node_count self.now.network }
        requires reached { to < node_count self.now.network }
        ensures { result ≡ energy self.now.network from to }
    {
        self.inst.energy(from, to)
    }

    /// How many buckets there are: the bound on the rest has an entry for each.
    pub(crate) fn buckets(&self) -> usize
        ensures value { result ≡ length self.now.route * node_count self.now.network }
        ensures few { length self.now.route * node_count self.now.network < 2 ^ 64 }
    {
        self.rest.least.len()
    }

    /// The bucket of the labels at a node once so much of the route was passed.
    pub(crate) fn bucket(&self, passed: usize, node: usize) -> usize
        requires passed { passed < length self.now.route }
        requires node { node < node_count self.now.network }
        requires few { length self.now.route * node_count self.now.network < 2 ^ 64 }
        ensures value { result ≡ passed * node_count self.now.network + node }
        ensures within { result < length self.now.route * node_count self.now.network }
    {
        passed * self.inst.nodes() + node
    }
}
