//! Dominance between partial routes: the least time at each battery level, and when one value makes
//! another needless (labels that carry functions: Froger, Mendoza, Jabali, Laporte 2019).
#![tactic(auto)]

mod row;
mod value;

pub use row::Row;
pub use value::{Covers, LabelValue};
