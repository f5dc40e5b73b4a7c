//! The text of proofs of lower bounds for fleets of several kinds of vehicles, both ways, and of a
//! verdict on one.
#![tactic(auto)]

mod laws;
mod reading;
mod verdict;
mod writing;

pub use certificate_parts::CertText;
pub use laws::{
    mixed_faults_are_first, texts_mean_one_mixed_proof, texts_spell_mixed_proofs,
    written_mixed_proofs_are_read,
};
pub use reading::read_mixed;
pub use verdict::push_mixed_verdict;
pub use writing::push_mixed;
