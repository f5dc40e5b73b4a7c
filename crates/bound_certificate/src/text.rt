//! The text of certificates.

mod laws;
mod reading;
mod writing;

pub use laws::{
    certificate_faults_are_first, texts_mean_one_certificate, texts_spell_certificates,
    written_certificates_are_read,
};
pub use reading::read_certificate;
pub use writing::push_certificate;
