//! Why an answer of `evroute` isn't the one that was asked for: the verdicts of all its judges
//! among them. Its jobs stand on these causes, and who tells people what they mean.
#![tactic(auto)]

mod cause;

pub use cause::Cause;
