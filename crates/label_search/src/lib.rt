//! The search for labels, whatever a label remembers: those that wait are taken by least time,
//! those that others make needless are left out, and each that is left makes its steps (label
//! setting for shortest paths with resources: Irnich, Desaulniers 2005). Which steps there are,
//! what is earned and when labels show that no route earns is told by whoever calls.
#![tactic(auto)]

mod closing;
mod coverage;
mod found;
mod groups;
mod order;
mod resources;
mod search;
mod seeking;
mod steps;

pub use closing::{Closing, close};
pub use order::fastest_along;
pub use resources::{Care, ListFault, Resources};
pub use seeking::{Sought, seek, seek_labels};
pub use steps::values_at;
