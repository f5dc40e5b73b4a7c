//! The exact test of closed lists of labels: whether each step from a label leads to a state that
//! some label covers (completeness of forward labels: Irnich, Desaulniers 2005; with a battery
//! level as a resource: Froger, Mendoza, Jabali, Laporte 2019).
#![tactic(auto)]

mod check;
mod coverage;
mod fault;
mod links;
mod paid;
mod places;
mod question;
mod steps;

pub use check::check_closed;
pub use fault::ClosedFault;
pub use paid::{margin, price_sum};
pub use question::Question;
