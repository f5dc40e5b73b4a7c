//! The search for near routes that earn more by prices than they take, by labels in groups (labels
//! with completion bounds, as in Baldacci, Mingozzi, Roberti 2011). No clause rests on this: it
//! promises nothing but to be safe and to end; what it finds is judged by others.
#![tactic(auto)]

mod asked;
mod clock;
mod costs;
mod entries;
mod labels;
mod query;
mod route;
mod search;
mod shelf;
mod state;
mod values;

pub use clock::{NoClock, SearchClock};
pub use entries::{Comparison, Entry};
pub use labels::{NearLabel, NearLabels, Origin};
pub use query::NearQuery;
pub use route::{NearFound, NearRoute, SearchEnd};
pub use search::{Aim, Order, search_routes};
pub use state::{NearState, fold};
