//! A lower bound on the rest of a way, by which the search takes the label that promises most: A*
//! (Hart, Nilsson, Raphael 1968), for the labels of Froger, Mendoza, Jabali, Laporte 2019.
//!
//! Whoever drives on has to charge what the battery lacks, nowhere faster than at one rate. So an
//! arc costs its time and the time of charging the energy that it takes, at that rate, and what the
//! battery has is worth the time of charging it.
ghost use Rattle.std.specs.Prelude.{◌≡◌, ◌+◌, ◌-◌, ◌*◌, ◌<◌, ◌≤◌, ℕ, IfOk, IsTrue, false, length, slice_index};
ghost use Rattle.std.specs.List.{sum};
ghost use Rattle.ev_model.specs.Network.{node_count};
ghost use Rattle.ev_model.specs.Route.{IsRoute};
ghost use Rattle.frvcp_labels.specs.Rest.{IsBelowPoints, IsBelowSteps, IsDirect, AreLayers, IsLowered, IsRate, IsRateAt, IsRestBound, IsSteady, step_cost};
ghost use Rattle.route_steps.specs.Stations.{stations as stations_of};

use instance_reader::Instance;
use label_steps::{drive_time, full_level, unit_time};
use std::alloc::{AllocError, Global};

/// The bound of a route.
#[derive(Drop)]
pub(crate) struct Rest {
    /// The least scaled time that a unit of charge takes anywhere.
    pub(crate) rate: u64,
    /// For each bucket no more than the rest of any way costs from there.
    pub(crate) least: Vec<u64>,
}

impl Rest {
    /// The bound of a route, by the nodes that have a curve.
    pub(crate) fn new(
        alloc: Global,
        inst: &Instance,
        route: &[usize],
        stations: &[usize],
    ) -> Result<Rest, AllocError>
        requires route { IsRoute inst.now route.now }
        requires stations { stations.now ≡ stations_of inst.now }
        ensures { IfOk result (λ rest.
            IsRestBound inst.now route.now rest.rate rest.least.items) }
    {
        let rate = fastest_rate(inst, stations);
        let arcs = Arcs {
            inst,
            stations,
            rate,
        };
        // Where the product is past 64 bits as many are asked for as fit, which no memory holds.
        let buckets = route.len().saturating_mul(inst.nodes());
        let mut least = vec![in alloc; 0; buckets]?;
        arcs.fill(least.as_mut_slice(), route);
        Ok(Rest { rate, least })
    }
}

/// The fastest rate of the stations, 0 where there is none.
pub(crate) fn fastest_rate(inst: &Instance, stations: &[usize]) -> u64
    requires { stations.now ≡ stations_of inst.now }
    ensures { IsRate inst.now result }
{
    if stations.is_empty() {
        return 0;
    }
    let mut rate = u64::MAX;
    for station in stations {
        rate = rate.min(rate_at(inst, *station));
    }
    rate
}

/// How long the first unit of charge takes at a node: no later one takes less.
fn rate_at(inst: &Instance, node: usize) -> u64
    requires { node < node_count inst.now }
    ensures { IsRateAt inst.now result node }
{
    let Some(curve) = inst.curve_at(node) else {
        return 0;
    };
    let full = full_level(curve);
    if full == 0 {
        return 0;
    }
    unit_time(curve, full, 0)
}

/// The arcs of an instance, with the nodes that have a curve and a rate.
#[derive(Drop)]
pub(crate) struct Arcs<'a> {
    pub(crate) inst: &'a Instance,
    pub(crate) stations: &'a [usize],
    pub(crate) rate: u64,
}

impl<'a> Arcs<'a> {
    /// The cost of an arc, or the greatest number where that is less.
    pub(crate) fn cost(&self, from: usize, to: usize) -> u64
        requires left { from < node_count self.now.inst.now }
        requires reached { to < node_count self.now.inst.now }
        ensures { result ≤ step_cost self.now.inst.now self.now.rate from to }
    {
        let charging = self.rate.saturating_mul(self.inst.energy(from, to));
        drive_time(self.inst, from, to).saturating_add(charging)
    }

    /// Fills a table from the end of the route backwards.
    fn fill(&self, least: &mut [u64], route: &[usize])
        requires route { IsRoute self.now.inst.now route.now }
        requires stations { self.now.stations.now ≡ stations_of self.now.inst.now }
        requires count { length least.old ≡ length route.now * node_count self.now.inst.now }
        requires zero { (i : ℕ) → slice_index least.old i ≡ 0 }
        ensures count { length least.new ≡ length least.old }
        ensures layers { AreLayers self.now.inst.now route.now self.now.rate least.new 0 }
    {
        let nodes = self.inst.nodes();
        let end = route.len() - 1;
        least[end * nodes + route[end]] = self.rate.saturating_mul(self.inst.home_q());
        for passed in (0..end).rev() {
            self.fill_layer(least, passed * nodes, route[passed], route[passed + 1]);
        }
    }

    /// Fills the layer of a node of the route, behind which `next` comes. The layers before it
    /// are 0.
    fn fill_layer(&self, least: &mut [u64], base: usize, own: usize, next: usize)
        requires stations { self.now.stations.now ≡ stations_of self.now.inst.now }
        requires own { own < node_count self.now.inst.now }
        requires next { next < node_count self.now.inst.now }
        requires inside { base + 2 * node_count self.now.inst.now ≤ length least.old }
        requires zero { (i : ℕ) → i < base + node_count self.now.inst.now →
            slice_index least.old i ≡ 0 }
        ensures count { length least.new ≡ length least.old }
        ensures zero { (i : ℕ) → i < base → slice_index least.new i ≡ 0 }
        ensures stays { (i : ℕ) → base + node_count self.now.inst.now ≤ i →
            slice_index least.new i ≡ slice_index least.old i }
        ensures steady { IsSteady self.now.inst.now self.now.rate least.new base }
        ensures direct { IsDirect self.now.inst.now self.now.rate least.new base next
            (slice_index least.new (base + node_count self.now.inst.now + next)) }
    {
        let after = least[base + self.inst.nodes() + next];
        least[base + own] = self.cost(own, next).saturating_add(after);
        self.go_on_directly(least, base, next, after);
        self.settle_layer(least, base);
    }

    /// The entries of the stations, as if the next node followed.
    fn go_on_directly(&self, least: &mut [u64], base: usize, next: usize, after: u64)
        requires stations { self.now.stations.now ≡ stations_of self.now.inst.now }
        requires next { next < node_count self.now.inst.now }
        requires inside { base + node_count self.now.inst.now ≤ length least.old }
        requires direct { IsDirect self.now.inst.now self.now.rate least.old base next after }
        ensures count { length least.new ≡ length least.old }
        ensures before { (i : ℕ) → i < base → slice_index least.new i ≡ slice_index least.old i }
        ensures stays { (i : ℕ) → base + node_count self.now.inst.now ≤ i →
            slice_index least.new i ≡ slice_index least.old i }
        ensures direct { IsDirect self.now.inst.now self.now.rate least.new base next after }
    {
        for station in self.stations {
            least[base + *station] = self.cost(*station, next).saturating_add(after);
        }
    }

    /// Lowers the entries of a layer until going on over a station lowers none.
    pub(crate) fn settle_layer(&self, least: &mut [u64], base: usize)
        requires stations { self.now.stations.now ≡ stations_of self.now.inst.now }
        requires inside { base + node_count self.now.inst.now ≤ length least.old }
        ensures lowered { IsLowered (base + node_count self.now.inst.now) least.old least.new }
        ensures steady { IsSteady self.now.inst.now self.now.rate least.new base }
    {
        let mut is_lower = true;
        while is_lower {
            is_lower = self.lower_layer(least, base);
        }
    }

    /// Lowers each entry of a layer to the least cost of going on over a station. Whether one
    /// falls.
    fn lower_layer(&self, least: &mut [u64], base: usize) -> bool
        requires stations { self.now.stations.now ≡ stations_of self.now.inst.now }
        requires inside { base + node_count self.now.inst.now ≤ length least.old }
        ensures lowered { IsLowered (base + node_count self.now.inst.now) least.old least.new }
        ensures less { IsTrue result → sum least.new < sum least.old }
        ensures same { result ≡ false → least.new ≡ least.old }
        ensures steady { result ≡ false →
            IsSteady self.now.inst.now self.now.rate least.new base }
    {
        let mut is_lower = false;
        for node in 0..self.inst.nodes() {
            if self.lower_entry(least, base, node) {
                is_lower = true;
            }
        }
        is_lower
    }

    /// Lowers one entry. Whether it falls.
    fn lower_entry(&self, least: &mut [u64], base: usize, node: usize) -> bool
        requires stations { self.now.stations.now ≡ stations_of self.now.inst.now }
        requires node { node < node_count self.now.inst.now }
        requires inside { base + node_count self.now.inst.now ≤ length least.old }
        ensures lowered { IsLowered (base + node_count self.now.inst.now) least.old least.new }
        ensures less { IsTrue result → sum least.new < sum least.old }
        ensures same { result ≡ false → least.new ≡ least.old }
        ensures steady { result ≡ false →
            IsBelowSteps self.now.inst.now self.now.rate least.old base node
            (slice_index least.old (base + node)) }
    {
        let own = least[base + node];
        if own == 0 {
            return false;
        }
        let cheapest = self.cheapest(least, base, node, own);
        if cheapest == own {
            return false;
        }
        least[base + node] = cheapest;
        true
    }

    /// The least cost of going on from a node over a station, at most `most`.
    fn cheapest(&self, least: &[u64], base: usize, from: usize, most: u64) -> u64
        requires stations { self.now.stations.now ≡ stations_of self.now.inst.now }
        requires from { from < node_count self.now.inst.now }
        requires inside { base + node_count self.now.inst.now ≤ length least.now }
        ensures most { result ≤ most }
        ensures below { IsBelowSteps self.now.inst.now self.now.rate least.now base from result }
    {
        let mut cheapest = most;
        for station in self.stations {
            let cost = self.cost(from, *station);
            cheapest = cheapest.min(cost.saturating_add(least[base + *station]));
        }
        cheapest
    }
}

/// The least time of the points (level, time), with that of a rest, and without that of charging
/// the level at a rate.
pub(crate) fn least_total(points: &[(u64, u64)], rest: u64, rate: u64) -> u64
    ensures { IsBelowPoints rate rest points.now result }
{
    let mut least = u64::MAX;
    for point in points {
        least = least.min(total(*point, rest, rate));
    }
    least
}

/// The same for one point: 0 where the level is worth more, the greatest number where that is less.
fn total(point: (u64, u64), rest: u64, rate: u64) -> u64
    ensures { result ≤ point.1 + rest - rate * point.0 }
{
    let whole = u128::from(point.1) + u128::from(rest);
    let had = u128::from(rate) * u128::from(point.0);
    whole.saturating_sub(had).min(u128::from(u64::MAX)) as u64
}
