//! What a program prints, in words for people, and what stands in the files of a job: for all
//! programs, by the names of a job's files ([`JobNames`]) and the words of a program's commands
//! ([`Command`]).
//!
//! A line that is refused or rejected names a rule by its number, and the usage text doesn't say
//! which word is wrong. What stands here says it in words, for standard error. It promises nothing
//! of them: that it is safe and ends is proved, and the words are tested.
#![tactic(auto)]

mod commands;
mod json;
mod left;
mod length;
mod names;
mod refusals;
mod rejected;
mod sentence;
mod writing;
mod wrong_words;

pub use commands::{Command, CommandOption, OptionValue};
pub use json::broken_json;
pub use left::{Failed, left_behind, left_in};
pub use length::long_proof;
pub use names::{Instances, JobNames, are_regular};
pub use refusals::{refused, told_refusal};
pub use rejected::{rejected_plan, stop_of, words_of_walk};
pub use sentence::Sentence;
pub use writing::unwritable;
pub use wrong_words::wrong_word;
