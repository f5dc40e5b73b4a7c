//! One step of a vehicle, by what is left of a label's value: on arriving at a node, and on leaving
//! it after plugging in and charging (with a battery level as a resource: Froger, Mendoza, Jabali,
//! Laporte 2019).
#![tactic(auto)]

mod arc;
mod arriving;
mod covering;
mod leaving;
mod paying;

pub use arc::{drive_time, plugging_time};
pub use arriving::arrival;
pub use covering::{Covering, covers_all};
pub use leaving::departures;
pub use paying::{full_level, unit_time};
