//! How a vehicle goes along a route: which stops may follow, and what becomes of the least times at
//! all levels of its battery by one step (Froger, Mendoza, Jabali, Laporte 2019).
#![tactic(auto)]

mod state;
mod stations;
mod stepping;

pub use state::{Place, State};
pub use stations::station_nodes;
pub use stepping::values_at;
