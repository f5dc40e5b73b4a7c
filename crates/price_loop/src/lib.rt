//! The loop of column generation: a master problem over routes that each have a set of customers
//! and a cost, and whoever finds further ones that earn at its prices, or shows that none does
//! (Desaulniers, Desrosiers, Solomon 2005). Where its numbers grow too wide, prices that rise
//! customer by customer bound it all the same.
#![tactic(auto)]

mod cost;
mod earners;
mod ended;
mod fault;
mod master;
mod rising;
mod rounds;
mod watcher;

pub use cost::cover_cost;
pub use earners::{Earned, Earners};
pub use ended::LoopEnd;
pub use rising::{Risen, rise, rise_watched};
pub use rounds::{price_out, price_out_watched};
pub use watcher::{Nobody, RisingProgress, RoundProgress, RoundWatcher};
