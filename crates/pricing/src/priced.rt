//! What pricing is asked and what it answers.

use piece_fn::Label;
use route_plan::RoutePlan;

/// The weight of a unit of scaled time, and the price of each customer, by number.
#[derive(Drop)]
pub struct Prices {
    pub weight: u64,
    pub of: Vec<i128>,
}

/// A route with the nodes of its customers, in the order in which it serves them.
#[derive(Drop)]
pub struct PricedRoute {
    pub plan: RoutePlan,
    pub order: Vec<usize>,
}

/// What pricing answers.
#[derive(Drop)]
pub enum Priced {
    /// A route that takes, times the weight, less time than the sum of its customers' prices, with
    /// the nodes of these in the order in which it serves them; and further such routes.
    Better {
        plan: RoutePlan,
        order: Vec<usize>,
        further: Vec<PricedRoute>,
    },
    /// There is no such route: the labels are closed.
    Closed {
        labels: Vec<Label>,
    },
}
