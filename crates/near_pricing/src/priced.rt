//! What pricing of near routes is asked and what it answers.

use ev_list::Listed;
use near_proof::NearLabel;
use route_plan::RoutePlan;

/// The weight of a unit of scaled time, and the price of each customer, by number.
#[derive(Drop)]
pub struct Prices {
    pub weight: u64,
    pub of: Listed<u64>,
}

/// What pricing of near routes answers.
#[derive(Drop)]
pub enum NearPriced {
    /// A near route that takes, times the weight, less time than it earns.
    Better { plan: RoutePlan },
    /// There is no such route: the labels are closed.
    Closed { labels: Listed<NearLabel> },
}
