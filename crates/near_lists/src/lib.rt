//! Closed lists of labels of near routes by given prices, made stronger and cut to those that the
//! start needs, with a label for all vehicles of a layer from which no way home earns. No clause
//! rests on this: it promises nothing but to be safe and to end; whether a list is closed is judged
//! by others.
#![tactic(auto)]

mod closing;
mod far;
mod hits;
mod home;
mod keeping;
mod lasts;
mod lister;
mod near;
mod plan;
mod room;
mod section;
mod sizes;
mod steady;
mod strengthening;
mod tabled;
mod task;
mod values;
mod wanted;

pub use near::near_labels;
pub use plan::ListPlan;
pub use section::closed_section;
pub use task::ListTask;
