//! The first step of jobs on proofs of bounds by near routes: the proof of a file.
#![tactic(auto)]

mod reading;

pub use reading::proof_of;
