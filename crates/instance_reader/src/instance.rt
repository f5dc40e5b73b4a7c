//! An instance of the problem.

ghost use Rattle.std.specs.Prelude.{◌≡◌, ◌*◌, ◌^◌, ◌<◌, ◌≤◌, None, true, All, IfOk, IfErr, IfSome, MatchOption, length};
ghost use Rattle.std.specs.List.Sorted.{IsStrictlyIncreasing};
ghost use Rattle.ev_model.specs.Network.{IsNetwork, curve_at, energy, is_customer, most_nodes, node_count, plug_time, process_time, scaled_limit, travel_time};
ghost use Rattle.instance_reader.specs.Instance.{IsCurveAt, IsCustomerNumber, IsRoutePlace, customer_nodes};

use crate::curves::StationCurve;
use crate::faults::LimitFault;
use crate::limits::is_past_horizon;
use charge_curve::Scaled;
use std::marker::Model;

/// An instance: a network of nodes, the vehicle's battery and the limit on a route.
///
/// Nodes are numbered from 0, which is the depot. Levels and energies are in units of charge. Times
/// are in units of time; a scaled time is a time multiplied by [`Instance::denominator`]. Contracts
/// see the network. No call here takes memory.
#[derive(Drop)]
pub struct Instance {
    pub(crate) max_q: u64,
    pub(crate) min_q: u64,
    pub(crate) home_q: u64,
    pub(crate) energies: Vec<Vec<u64>>,
    pub(crate) times: Vec<Vec<u64>>,
    pub(crate) process_times: Vec<u64>,
    pub(crate) curves: Vec<StationCurve>,
    pub(crate) curve_numbers: Vec<Option<usize>>,
    pub(crate) plug_times: Vec<u64>,
    pub(crate) customers: Vec<usize>,
    pub(crate) customer_numbers: Vec<Option<usize>>,
    pub(crate) denominator: u64,
    pub(crate) limit: u64,
}

impl Model for Instance {
    ghost use Rattle.ev_model.specs.Network.{Network};

    ghost Value = { Network };

    ghost use Rattle.instance_reader.specs.Inside.{IsInstance, network_inside};

    ghost view = { network_inside };

    ghost invariant = { IsInstance };
}

impl Instance {
    /// The number of nodes: from 1 to 400.
    pub fn nodes(&self) -> usize
        ensures value { result ≡ node_count self.now }
        ensures some { 1 ≤ result }
        ensures few { result ≤ most_nodes }
        ensures network { IsNetwork self.now }
    {
        self.energies.len()
    }

    /// The charge of a full battery.
    pub fn max_q(&self) -> u64
        ensures value { result ≡ self.now.capacity }
        ensures small { result ≤ 10 ^ 9 }
    {
        self.max_q
    }

    /// The reserve: the least level on arriving at a stop.
    pub fn min_q(&self) -> u64
        ensures value { result ≡ self.now.reserve }
        ensures within { result ≤ self.now.capacity }
        ensures small { result ≤ 10 ^ 9 }
    {
        self.min_q
    }

    /// The least level on arriving at the end of a route.
    pub fn home_q(&self) -> u64
        ensures value { result ≡ self.now.home_level }
        ensures within { result ≤ self.now.capacity }
        ensures small { result ≤ 10 ^ 9 }
    {
        self.home_q
    }

    /// The time of the arc from node `i` to node `j`.
    pub fn time(&self, i: usize, j: usize) -> u64
        requires left { i < node_count self.now }
        requires reached { j < node_count self.now }
        ensures value { result ≡ travel_time self.now i j }
        ensures small { result ≤ 10 ^ 9 }
        ensures scaled { self.now.denominator * result ≤ 10 ^ 18 }
    {
        self.times[i][j]
    }

    /// The process time of node `i`: the time that a visit takes beside charging.
    pub fn service(&self, i: usize) -> u64
        requires { i < node_count self.now }
        ensures value { result ≡ process_time self.now i }
        ensures small { result ≤ 10 ^ 9 }
        ensures scaled { self.now.denominator * result ≤ 10 ^ 18 }
    {
        self.process_times[i]
    }

    /// The energy that the arc from node `i` to node `j` takes.
    pub fn energy(&self, i: usize, j: usize) -> u64
        requires left { i < node_count self.now }
        requires reached { j < node_count self.now }
        ensures value { result ≡ energy self.now i j }
        ensures small { result ≤ 10 ^ 9 }
    {
        self.energies[i][j]
    }

    /// The scaled curve of the station at a node, `None` exactly where the node has no station.
    pub fn curve_at(&self, node: usize) -> Option<&Scaled>
        requires { node < node_count self.now }
        ensures { MatchOption result (curve_at self.now node ≡ None)
            (λ s. IsCurveAt self.now node s.now) }
    {
        match self.curve_numbers[node] {
            Some(number) => Some(&self.curves[number].scaled),
            None => None,
        }
    }

    /// The time to plug in at a node, that of its station's type; 0 where it has no station. It is
    /// paid where something is charged.
    pub fn plug_at(&self, node: usize) -> u64
        requires { node < node_count self.now }
        ensures value { result ≡ plug_time self.now node }
        ensures small { result ≤ 10 ^ 9 }
        ensures scaled { self.now.denominator * result ≤ 10 ^ 18 }
    {
        self.plug_times[node]
    }

    /// The number by which a time is multiplied to be a scaled time: the least common multiple of
    /// the reduced denominators of all slopes (time over charge) of the curves below a full
    /// battery.
    pub fn denominator(&self) -> u64
        ensures value { result ≡ self.now.denominator }
        ensures some { 1 ≤ result }
        ensures small { result ≤ 10 ^ 9 }
    {
        self.denominator
    }

    /// How long a route may last, in units of time. Scaled it is at most 10^18.
    pub fn limit(&self) -> u64
        ensures value { result ≡ self.now.limit }
        ensures small { scaled_limit self.now ≤ 10 ^ 18 }
    {
        self.limit
    }

    /// The scaled limit on the time of a route: the limit times the denominator. It takes no
    /// memory.
    pub fn scaled_limit(&self) -> u64
        ensures value { result ≡ scaled_limit self.now }
        ensures small { result ≤ 10 ^ 18 }
    {
        self.denominator() * self.limit()
    }

    /// The customers' nodes in rising order.
    pub fn customers(&self) -> &[usize]
        ensures value { result.now ≡ customer_nodes self.now }
        ensures rising { IsStrictlyIncreasing result.now }
        ensures known { All (λ node. node < node_count self.now) result.now }
        ensures customers { All (λ node. is_customer self.now node ≡ true) result.now }
    {
        self.customers.as_slice()
    }

    /// The number of the customer at a node, which is its index in [`Instance::customers`]; `None`
    /// exactly where the node is no customer.
    pub fn customer_number(&self, node: usize) -> Option<usize>
        requires { node < node_count self.now }
        ensures value { IsCustomerNumber self.now node result }
        ensures within { IfSome result (λ number. number < length (customer_nodes self.now)) }
        ensures small { IfSome result (λ number. number < most_nodes) }
    {
        self.customer_numbers[node]
    }

    /// The place of a node on a route: one more than the number of the customer there, 0 exactly
    /// where the node is no customer.
    pub fn place_of(&self, node: usize) -> usize
        requires { node < node_count self.now }
        ensures value { IsRoutePlace self.now node result }
        ensures within { result ≤ length (customer_nodes self.now) }
    {
        match self.customer_number(node) {
            Some(number) => number + 1,
            None => 0,
        }
    }

    /// The instance with another limit, whether smaller or larger. It is refused exactly where the
    /// denominator times the limit is past 10^18.
    pub fn with_limit(mut self, l: u64) -> Result<Instance, LimitFault>
        ensures ok { IfOk result
            (λ inst. (inst ≡ record self { limit = l }) × (l * self.denominator ≤ 10 ^ 18)) }
        ensures err { IfErr result
            (λ e. (e.inst ≡ self) × (e.limit ≡ l) × (10 ^ 18 < l * self.denominator)) }
    {
        if is_past_horizon(self.denominator, l) {
            return Err(LimitFault {
                inst: self,
                limit: l,
            });
        }
        self.limit = l;
        Ok(self)
    }
}
