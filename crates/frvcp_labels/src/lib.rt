//! The fastest plan of one route, by labels that carry functions: the least time at each level of
//! the battery (Froger, Mendoza, Jabali, Laporte 2019).
//!
//! A label stands at a node once some of the route's nodes were passed. The label of least key is
//! taken next, and from it the vehicle goes on to the next node of the route or to a station. No
//! way home from a label takes less than its key, which at the route's end is its least time. So
//! the first label there that is taken has the least time, and where the least key is past the
//! limit there is no plan. Where a full battery was had by some time, a vehicle that arrives later
//! is needless, whatever it may charge; so no value is made for it. Nor is one made to charge where
//! a label was at the station before with all that arrives, since what it may charge was had then.
#![tactic(auto)]

mod bounds;
mod full;
mod hopeless;
mod listing;
mod reaching;
mod rest;
mod search;
mod solve;
mod there;
mod trace;
mod trip;

pub use bounds::RouteBounds;
pub use reaching::reachable_states;
pub use route_steps::station_nodes;
pub use solve::{Solved, solve_route, solve_with_labels};
