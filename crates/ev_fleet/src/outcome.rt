//! What a search answers.

use bound_certificate::Certificate;
use route_plan::FleetPlan;

/// What a search for the cheapest plan of a fleet has found.
#[derive(Drop)]
pub struct Outcome {
    /// The cheapest plan that was found, its routes in rising order of their first customers.
    pub plan: Option<FleetPlan>,
    /// Its scaled cost.
    pub cost: Option<u128>,
    /// What shows that no fleet plan costs less than its bound.
    pub certificate: Certificate,
    /// Of how many nodes of the tree the bound was found.
    pub nodes: u64,
    /// Whether the search ended since the given number of nodes was reached, and the cost isn't
    /// shown to be the least.
    pub stopped: bool,
}
