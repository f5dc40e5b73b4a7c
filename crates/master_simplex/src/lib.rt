//! The simplex method on the table of a master problem.
#![tactic(auto)]

mod basis;
mod fault;
mod helpers;
mod laws;
mod method;
mod phase;
mod prices;
mod ratio;
mod restore;
mod shares;

pub use fault::LpFault;
pub use laws::{an_optimum_is_the_least_cover, beside_a_ray_there_is_no_cover};
pub use method::solve;
pub use prices::Lp;
