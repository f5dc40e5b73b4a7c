//! What `evroute` tells people beside its output: how far a long job is, what its answer means,
//! which word is wrong, and what stands in its files. No word of it is promised.
#![tactic(auto)]

mod commands;
mod meaning;
mod names;
mod progress;
mod rejected;
mod told;

pub use meaning::{in_words, left_by_file, left_by_output, told_behind, told_in_front};
pub use names::names_of;
pub use told::ToldProgress;
