//! What planning a fleet of several kinds of vehicles answers.

use ev_list::Listed;
use mixed_model::{MixedProof, MixedRoute};

/// A plan of a fleet of several kinds of vehicles, where one is held, and a proof of a bound on
/// what such a fleet costs.
#[derive(Drop)]
pub struct MixedOutcome {
    /// The cheapest plan that was found, its routes in rising order of their first customers.
    pub plan: Option<Listed<MixedRoute>>,
    /// Its scaled cost.
    pub cost: Option<u128>,
    /// What shows that no plan costs less than its bound.
    pub proof: MixedProof,
}
