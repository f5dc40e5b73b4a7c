//! Proofs that a charged route is a fastest one.

use ev_list::Listed;
use piece_fn::PieceFn;
use route_plan::RoutePlan;

/// What shows that the plan is a fastest one of its route, or that no plan of the route is
/// feasible where there is none.
///
/// Levels are in units of charge, times are scaled by the instance's denominator.
#[derive(Drop)]
pub struct RouteProof {
    pub plan: Option<RoutePlan>,
    pub labels: Listed<RouteLabel>,
}

/// A vehicle about to leave a node on its way along a route, with the least time at each level of
/// its battery.
#[derive(Drop)]
pub struct RouteLabel {
    /// The index in the route of the last node that was served.
    pub passed: usize,
    /// The node: that one, or a station inserted after it.
    pub node: usize,
    pub value: PieceFn,
}
