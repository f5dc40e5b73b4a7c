//! What `mixed` and `check-mixed` find: files are read as the instances of kinds of vehicles; a
//! fleet of these kinds is planned, with a proof of a bound on its cost, or such a plan and such a
//! proof are judged.
#![tactic(auto)]

mod check;
mod fleet;
mod judging;
mod kinds;
mod planning;
mod refusal;

pub use check::check_mixed_files;
pub use fleet::mixed;
pub use mixed_fleet::{RisingProgress, RoundProgress, RoundWatcher};
