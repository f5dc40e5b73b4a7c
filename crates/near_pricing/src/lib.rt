//! Pricing of near routes, on which a customer may be served again once it is forgotten (the
//! ng-route relaxation: Baldacci, Mingozzi, Roberti 2011): one that earns more than it takes, or
//! labels that are closed, which shows that there is none.
//!
//! Labels that stand for all states from which no way home earns (`hopeless.rt`), by a table that
//! forgets who was served: each arc from such a label leads to a state that another one covers. So
//! a list of labels is closed where its other labels lead to covered states alone. No clause says
//! so: who lists the labels tests the list.
#![tactic(auto)]

mod answer;
mod asked;
mod gain;
mod hopeless;
mod labels;
mod listing;
mod priced;
mod steps;
mod table;
mod value;

pub use answer::near_price;
pub use priced::{NearPriced, Prices};
