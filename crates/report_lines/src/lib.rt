//! Lines that several reports have: words and numbers, scaled numbers over a denominator, cost,
//! bound and gap, fractions in lowest terms, and the rule that a walk breaks.
#![tactic(auto)]

mod fraction;
mod scaled;
mod walk;
mod words;

pub use fraction::{Fraction, lowest_terms, push_fraction};
pub use scaled::{
    push_bounds, push_over, push_scaled, push_scaled_line, push_time, push_time_line,
};
pub use walk::push_walk_rule;
pub use words::{push_infeasible, push_number_line, push_numbered, push_word};
