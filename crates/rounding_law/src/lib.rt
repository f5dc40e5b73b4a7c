//! The rounding law: no fraction of a unit of charge makes a plan faster.
//!
//! A plan whose amounts are in kths of a unit rounds to `k` whole plans, one for each offset `j`
//! below `k`: each battery level of `z` kths becomes `(z + j) / k`, rounded down. Energies, the
//! reserve, the level at home and a full battery are whole, so each of these plans keeps the
//! battery. A stop that charges nothing charges nothing in any of them, so they plug in no more
//! often. Their times add up to at most the plan's time in kths, so one of them is no slower.
#![tactic(auto)]

mod best;
mod laws;
mod rounding;

pub use best::best_rounding;
pub use laws::{
    no_fraction_is_faster, rounded_levels_tell_the_plan, rounded_plans_keep_the_battery,
    rounded_times_add_up, whole_levels_add_up, whole_plans_suffice,
};
pub use rounding::rounded;
