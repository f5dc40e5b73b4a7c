//! Label values that keep few supporting points: the least time at each battery level is linear
//! between them (Froger, Mendoza, Jabali, Laporte 2019).
#![tactic(auto)]

mod charging;
mod coverage;
mod label;
mod piece_fn;
mod points;
mod reach;

pub use label::Label;
pub use piece_fn::PieceFn;
