//! It is there for tests: the fastest plan of one route, by a table of the least times home over
//! every whole level of the battery; and small instances that are drawn by a number, with the least
//! cost of a fleet by a plain enumeration (which promises nothing).
//!
//! From each place on the way, and with each whole charge, a vehicle drives on, or plugs in,
//! charges one unit after another and unplugs; the first unit pays the time to plug in. So each
//! cell of the table has two entries, for a vehicle that is plugged in and for one that isn't: the
//! least time home from there, filled from the end of the route until no move makes home nearer.
//! The plan makes the best move from place to place.
#![tactic(auto)]

mod drawn;
mod enumerated;
mod fault;
mod moves;
mod offers;
mod place;
mod reach;
mod solve;
mod stations;
mod table;
mod trip;
mod walk;

pub use drawn::instance_text;
pub use enumerated::{least_cost, least_partition, least_times, lesser};
pub use fault::LevelFault;
pub use solve::solve_levels;
