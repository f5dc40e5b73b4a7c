//! The job that only tells people of a program: how it is called, or which version it is.
#![tactic(auto)]

mod telling;
mod words;

pub use telling::tell;
pub use words::{Told, told_by};
