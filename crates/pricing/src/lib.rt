//! Pricing over free routes: a route that earns more by its customers' prices than it takes, or a
//! closed list of labels, which shows that there is none (elementary shortest paths with resources:
//! Feillet, Dejax, Gendreau, Gueguen 2004; with a battery level as a resource: Froger, Mendoza,
//! Jabali, Laporte 2019).
#![tactic(auto)]

mod answer;
mod arcs;
mod completion;
mod labels;
mod priced;

pub use answer::{price, seek};
pub use priced::{Priced, PricedRoute, Prices};
