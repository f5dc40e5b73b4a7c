//! Proofs of lower bounds by near routes.

use customer_sets::CustSet;
use ev_list::Listed;
use piece_fn::PieceFn;
use route_plan::RoutePlan;

/// What shows that no plan of a fleet costs less than a bound, or that there is none.
///
/// Customers are numbered from 0 in rising order of their nodes. Levels are in units of charge;
/// times, prices and the bound are scaled by the instance's denominator.
#[derive(Drop)]
pub struct NearProof {
    /// What no fleet plan costs less than; `None` says that there is no fleet plan.
    pub bound: Option<u128>,
    /// The weight of time: 1, or 0 where there is no bound.
    pub weight: u64,
    /// A price for each customer, by number.
    pub prices: Listed<u64>,
    /// The near set of each customer, by number: whom a vehicle that serves the customer goes on
    /// to remember.
    pub sets: Listed<CustSet>,
    pub labels: Listed<NearLabel>,
    /// For each customer, by number, a near route that shows that the price can't be higher; none
    /// where there is no bound.
    pub tight: Listed<RoutePlan>,
}

/// A vehicle about to leave a node on a near route, with a time at each level of its battery.
#[derive(Drop)]
pub struct NearLabel {
    /// The node where the vehicle is.
    pub node: usize,
    /// The customers that are remembered, who can't be served now.
    pub memory: CustSet,
    /// How many services there were.
    pub count: usize,
    /// What was earned by them.
    pub earned: u128,
    pub value: PieceFn,
}
