//! Charging curves: piecewise linear, concave, cut at a full battery, and scaled to whole times
//! (Montoya, Gueret, Mendoza, Villegas 2017).
#![tactic(auto)]

mod curve;
mod denominator;
mod fault;
mod laws;
mod scaled;

pub use curve::Curve;
pub use denominator::common_denominator;
pub use fault::CurveFault;
pub use laws::{curves_have_one_denominator, denominator_is_that_of_the_breakpoints};
pub use scaled::Scaled;
