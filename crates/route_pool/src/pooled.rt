//! What a pool has for an order of customers.

use route_plan::RoutePlan;

/// A plan, and its scaled time from full as it was when the plan came in. The time tells which
/// routes are worth a look, and nothing rests on it.
#[derive(Drop)]
pub struct Pooled {
    pub plan: RoutePlan,
    pub time: u64,
}
