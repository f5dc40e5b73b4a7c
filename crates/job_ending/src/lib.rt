//! What is alike in all programs: words become a job, which is done; how a program ends: its exit
//! status, and what people are told on standard error where that alone would leave them without a
//! cause.
#![tactic(auto)]

mod diagnostics;
mod ending;
mod failing;
mod finishing;
mod message;
mod program;

pub use diagnostics::{Diagnostics, SystemDiagnostics};
pub use ending::{end_run, end_without_words};
pub use failing::{FailingShelf, FailingSink};
pub use finishing::{LastCause, finish, put_usage};
pub use message::Message;
pub use program::{End, Program, exit_code, run, run_to_end};
