//! Who hears a job for people: an output that remembers whether anything was put, standard error
//! that says how much memory had been taken, and when a line on how far a long job is is due.
//!
//! Standard output stays as it is.
#![tactic(auto)]

mod gap;
mod heard;
mod pace;
mod taken;

pub use gap::PercentGap;
pub use heard::HeardSink;
pub use pace::{Pace, wants_progress};
pub use taken::{OutOfMemory, PlainDiagnostics, most_memory};
