//! Lower bounds on the times of routes, by tables that are made once for all of them.
//!
//! A way from one node to the next of a route may go over stations, and no triangle inequality
//! holds; so a table has for each two nodes no more than any such way costs. It does so twice: by
//! the times alone, and by the times and the time of charging what the arcs take at the fastest
//! rate, which is worth what the battery had.
ghost use Rattle.std.specs.Prelude.{◌≡◌, ◌+◌, ◌*◌, ◌^◌, ◌-◌, ◌<◌, ◌≤◌, ◌++◌, [], ◌∷◌, ℕ, IfOk, List, MatchOption, length, slice_index};
ghost use Rattle.std.specs.List.{All};
ghost use Rattle.ev_model.specs.Feasible.{IsFeasible};
ghost use Rattle.ev_model.specs.Network.{node_count};
ghost use Rattle.ev_model.specs.Route.{FollowsRoute, IsRoute};
ghost use Rattle.ev_model.specs.Time.{time_of};
ghost use Rattle.ev_model.specs.declared.Stop.{Stop};
ghost use Rattle.frvcp_labels.specs.Answers.{HasNoneBelow, IsFastestBelow};
ghost use Rattle.frvcp_labels.specs.Bounds.{AreWayCosts, IsLayer, capped, lists_in, way_sum};
ghost use Rattle.frvcp_labels.specs.Rest.{AreLayers, IsDirect, IsRate, IsRestBound};
ghost use Rattle.route_steps.specs.Stations.{stations as stations_of};

use crate::rest::{Arcs, Rest, fastest_rate};
use crate::trip::Trip;
use instance_reader::Instance;
use route_plan::RoutePlan;
use route_steps::station_nodes;
use std::alloc::{AllocError, Global};
use std::marker::Model;

/// Lower bounds on the times of the routes of an instance. Contracts see the network.
#[derive(Drop)]
pub struct RouteBounds<'a> {
    inst: &'a Instance,
    stations: Vec<usize>,
    by_time: WayCosts,
    by_charge: WayCosts,
}

impl<'a> Model for RouteBounds<'a> {
    ghost use Rattle.ev_model.specs.Network.{Network};

    ghost Value = { Network };

    ghost use Rattle.frvcp_labels.specs.BoundsView.{AreBounds};

    ghost view = { λ b. b.inst.now };

    ghost invariant = { AreBounds };
}

impl<'a> RouteBounds<'a> {
    /// The bounds of an instance.
    pub fn new(alloc: Global, inst: &'a Instance) -> Result<RouteBounds<'a>, AllocError>
        ensures { IfOk result (λ bounds. bounds ≡ inst.now) }
    {
        let stations = station_nodes(alloc, inst)?;
        let rate = fastest_rate(inst, &stations);
        let by_time = WayCosts::new(alloc, inst, &stations, 0)?;
        let by_charge = WayCosts::new(alloc, inst, &stations, rate)?;
        Ok(RouteBounds {
            inst,
            stations,
            by_time,
            by_charge,
        })
    }

    /// A fastest plan of the route for a vehicle that starts with the charge `start`, in units of
    /// charge, as `solve_route` finds it, where it takes less than `bar`, a scaled time. `Ok(None)`
    /// comes exactly where no feasible plan of the route does, in any fraction of a unit; the search
    /// ends as soon as that is known.
    pub fn solve_below(
        &self,
        alloc: Global,
        route: &[usize],
        start: u64,
        bar: u128,
    ) -> Result<Option<RoutePlan>, AllocError>
        requires route { IsRoute self.now route.now }
        requires start { start ≤ self.now.capacity }
        ensures { IfOk result (λ answer. MatchOption answer
            (HasNoneBelow self.now route.now start bar)
            (λ plan. IsFastestBelow self.now route.now start bar plan.stops)) }
    {
        let _nodes = self.inst.nodes();
        let rest = self.by_charge.rest_of(alloc, self.inst, route)?;
        let trip = Trip {
            inst: self.inst,
            route,
            stations: &self.stations,
            start,
            rest: &rest,
        };
        trip.fastest_below(alloc, bar)
    }

    /// A scaled time than which no plan, from full, of the route from the depot over the nodes of
    /// `order` to the depot takes less. It takes no memory.
    pub fn bound(&self, order: &[usize]) -> u128
        requires { All (λ node. node < node_count self.now) order.now }
        ensures { (stops : List Stop) → IsFeasible self.now 1 self.now.capacity stops →
            FollowsRoute (0 ∷ order.now ++ 0 ∷ []) stops →
            result ≤ time_of self.now 1 self.now.capacity stops }
    {
        let _nodes = self.inst.nodes();
        let time = self.by_time.sum(order);
        let rate = u128::from(self.by_charge.rate);
        let charge = self.by_charge.sum(order) + rate * u128::from(self.inst.home_q());
        time.max(charge.saturating_sub(rate * u128::from(self.inst.max_q())))
    }
}

/// For each node a layer, which has for each node no more than a way from there over stations alone
/// costs, where charging takes some rate.
#[derive(Drop)]
pub(crate) struct WayCosts {
    pub(crate) rate: u64,
    pub(crate) layers: Vec<Vec<u64>>,
}

impl WayCosts {
    /// The costs at a rate.
    fn new(
        alloc: Global,
        inst: &Instance,
        stations: &[usize],
        rate: u64,
    ) -> Result<WayCosts, AllocError>
        requires { stations.now ≡ stations_of inst.now }
        ensures rate { IfOk result (λ costs. costs.rate ≡ rate) }
        ensures costs { IfOk result (λ costs.
            AreWayCosts inst.now rate (lists_in costs.layers.items)) }
    {
        let arcs = Arcs {
            inst,
            stations,
            rate,
        };
        let mut layers = Vec::new(alloc);
        for to in 0..inst.nodes() {
            layers.push(layer_to(alloc, &arcs, to)?)?;
        }
        Ok(WayCosts { rate, layers })
    }

    /// The bound on the rest of each way along a route.
    fn rest_of(&self, alloc: Global, inst: &Instance, route: &[usize]) -> Result<Rest, AllocError>
        requires route { IsRoute inst.now route.now }
        requires rate { IsRate inst.now self.now.rate }
        requires costs { AreWayCosts inst.now self.now.rate (lists_in self.now.layers.items) }
        ensures { IfOk result (λ rest.
            IsRestBound inst.now route.now rest.rate rest.least.items) }
    {
        // Where the product is past 64 bits as many are asked for as fit, which no memory holds.
        let buckets = route.len().saturating_mul(inst.nodes());
        let mut least = vec![in alloc; 0; buckets]?;
        self.fill(inst, least.as_mut_slice(), route);
        Ok(Rest {
            rate: self.rate,
            least,
        })
    }

    /// Fills a table of the rest from the end of the route backwards.
    fn fill(&self, inst: &Instance, least: &mut [u64], route: &[usize])
        requires route { IsRoute inst.now route.now }
        requires costs { AreWayCosts inst.now self.now.rate (lists_in self.now.layers.items) }
        requires count { length least.old ≡ length route.now * node_count inst.now }
        requires zero { (i : ℕ) → slice_index least.old i ≡ 0 }
        ensures count { length least.new ≡ length least.old }
        ensures layers { AreLayers inst.now route.now self.now.rate least.new 0 }
    {
        let nodes = inst.nodes();
        let end = route.len() - 1;
        least[end * nodes + route[end]] = self.rate.saturating_mul(inst.home_q());
        for passed in (0..end).rev() {
            let next = route[passed + 1];
            let after = least[(passed + 1) * nodes + next];
            lay(least, passed * nodes, &self.layers[next], after);
        }
    }

    /// The sum over the ways from the depot over the nodes to the depot.
    fn sum(&self, order: &[usize]) -> u128
        requires depot { 0 < length self.now.layers.items }
        requires entries { All (λ layer. length layer ≡ length self.now.layers.items)
            (lists_in self.now.layers.items) }
        requires known { All (λ node. node < length self.now.layers.items) order.now }
        ensures value { result ≡ way_sum (lists_in self.now.layers.items) 0 (order.now ++ 0 ∷ []) }
        ensures small { result ≤ (length order.now + 1) * 2 ^ 64 }
    {
        let mut sum = 0;
        let mut from = 0;
        for to in order {
            sum += u128::from(self.layers[*to][from]);
            from = *to;
        }
        sum + u128::from(self.layers[0][from])
    }
}

/// Writes the entries of a layer from an index on, each with what comes after it, or the greatest
/// number where that is less.
fn lay(least: &mut [u64], base: usize, layer: &[u64], after: u64)
    requires inside { base + length layer.now ≤ length least.old }
    ensures count { length least.new ≡ length least.old }
    ensures laid { (n : ℕ) → n < length layer.now →
        slice_index least.new (base + n) ≡ capped (slice_index layer.now n + after) }
    ensures stays { (i : ℕ) → base + length layer.now ≤ i →
        slice_index least.new i ≡ slice_index least.old i }
{
    for n in 0..layer.len() {
        least[base + n] = layer[n].saturating_add(after);
    }
}

/// The layer of a node.
fn layer_to(alloc: Global, arcs: &Arcs, to: usize) -> Result<Vec<u64>, AllocError>
    requires stations { arcs.now.stations.now ≡ stations_of arcs.now.inst.now }
    requires to { to < node_count arcs.now.inst.now }
    ensures { IfOk result (λ layer. IsLayer arcs.now.inst.now arcs.now.rate to layer.items) }
{
    let mut layer = vec![in alloc; 0; arcs.inst.nodes()]?;
    go_directly(arcs, &mut layer, to);
    arcs.settle_layer(&mut layer, 0);
    Ok(layer)
}

/// The costs of the arcs to a node.
fn go_directly(arcs: &Arcs, layer: &mut [u64], to: usize)
    requires count { length layer.old ≡ node_count arcs.now.inst.now }
    requires to { to < node_count arcs.now.inst.now }
    ensures count { length layer.new ≡ length layer.old }
    ensures direct { IsDirect arcs.now.inst.now arcs.now.rate layer.new 0 to 0 }
{
    for from in 0..layer.len() {
        layer[from] = arcs.cost(from, to);
    }
}
