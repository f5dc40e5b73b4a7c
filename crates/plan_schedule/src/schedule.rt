//! What a schedule is made of.

use ev_list::Listed;

/// What a node is.
#[derive(Clone, Copy, Debug, PartialEq, Eq)]
pub enum PlaceKind {
    /// Node 0, also where it has a station.
    Depot,
    /// Another node without a station.
    Customer,
    /// Another node with a station.
    Station,
}

/// A visit: the arc that leads to a stop, and what happens there, in this order: the vehicle
/// arrives, serves, plugs in, charges, leaves. Times are scaled, levels and energies in units of
/// charge.
#[derive(Clone, Copy)]
pub struct Visit {
    pub node: usize,
    pub kind: PlaceKind,
    /// The stop was inserted and isn't part of the route.
    pub inserted: bool,
    /// The energy of the arc from the stop before; 0 at the first stop, as `driving`.
    pub energy: u64,
    /// The time of the arc from the stop before.
    pub driving: u64,
    /// When the vehicle arrives, from the beginning of the route.
    pub arrival: u64,
    /// The level on arriving.
    pub level: u64,
    /// The process time of the node; 0 at the first stop.
    pub service: u64,
    /// The time to plug in; 0 where nothing is charged.
    pub plugging: u64,
    /// The time of charging.
    pub charging: u64,
    /// What is charged.
    pub charged: u64,
    /// The level on leaving: `level` and `charged`.
    pub level_left: u64,
    /// When the vehicle leaves, from the beginning of the route.
    pub leaving: u64,
}

/// A corner of the line that the level of the battery follows over time.
#[derive(Clone, Copy)]
pub struct Corner {
    /// The scaled time from the beginning of the route.
    pub time: u64,
    /// The level at this time, in units of charge.
    pub level: u64,
    /// A breakpoint of the charging curve, above the level on arriving and below the one on
    /// leaving.
    pub bend: bool,
}

/// Sums over the visits of a route, or of a plan: scaled times, energies in units of charge.
#[derive(Clone, Copy)]
pub struct Totals {
    pub driving: u128,
    pub serving: u128,
    pub plugging: u128,
    pub charging: u128,
    /// The sum of the four above: the scaled time of the route, or the cost of the plan.
    pub time: u128,
    pub energy_driven: u128,
    pub energy_charged: u128,
    /// How many visits there are, both ends of each route included.
    pub stops: u128,
}

/// The schedule of a route.
#[derive(Drop)]
pub struct RouteSchedule {
    /// The number of the route in its plan, from 0.
    pub number: usize,
    pub visits: Listed<Visit>,
    /// The level of the battery over time, linear from corner to corner.
    pub line: Listed<Corner>,
    pub totals: Totals,
}

/// The schedule of a fleet plan.
#[derive(Drop)]
pub struct Schedule {
    /// The number by which times are multiplied to be scaled times: 1 or more.
    pub denominator: u64,
    /// The level of a full battery.
    pub full: u64,
    /// The least level on arriving at a stop.
    pub reserve: u64,
    /// The least level on arriving at the end of a route.
    pub home: u64,
    /// The scaled limit on the time of each route.
    pub limit: u64,
    /// The routes, all of the plan or one of them.
    pub routes: Listed<RouteSchedule>,
    /// The sums over all routes of the plan.
    pub totals: Totals,
}
