//! The text of proofs of lower bounds by near routes, both ways, of a verdict on one, and of the
//! bound.
#![tactic(auto)]

mod laws;
mod reading;
mod verdict;
mod writing;

pub use certificate_parts::CertText;
pub use laws::{
    near_faults_are_first, texts_mean_one_near_proof, texts_spell_near_proofs,
    written_near_proofs_are_read,
};
pub use reading::read_near;
pub use verdict::{push_near_bound, push_near_verdict};
pub use writing::push_near;
