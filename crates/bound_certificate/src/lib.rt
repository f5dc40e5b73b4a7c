//! Certificates of lower bounds on fleets, those of `fleet`: the value, its ranges and its text;
//! the entries of a basis as they list it.
#![tactic(auto)]

mod certificate;
mod laws;
mod listed;
mod ranges;
mod text;

pub use certificate::{Certificate, Root, Section, Share, TreeLine};
pub use certificate_parts::{BasisEntry, CertText};
pub use laws::fitting_certificates_have_sections_and_a_tree;
pub use listed::entries_of;
pub use text::{
    certificate_faults_are_first, push_certificate, read_certificate, texts_mean_one_certificate,
    texts_spell_certificates, written_certificates_are_read,
};
