//! Routes by the order of their customers: the pool that keeps them, and which of them are worth a
//! look at given prices.
#![tactic(auto)]

mod keeping;
mod numbers;
mod own;
mod partial_pricing;
mod pool;
mod pooled;

pub use keeping::keeps_pairs;
pub use numbers::number_of;
pub use own::{put_own_route, put_own_routes};
pub use partial_pricing::{earning, kept_places};
pub use pool::ColumnPool;
pub use pooled::Pooled;
