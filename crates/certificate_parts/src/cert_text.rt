//! Why bytes are no text of a certificate.

ghost use Rattle.std.specs.Prelude.{◌≡◌};
ghost use Rattle.certificate_parts.specs.Refusals.{as_refusal, of_plan};
ghost use Rattle.certificate_parts.specs.declared.cert_text.CertText.TheVariants.{Memory};

use ev_text::TextFault;
use route_plan::PlanText;
use std::alloc::{AllocError, AllocFailed};

/// The first cause why bytes are no certificate of an instance. Places count bytes from 0.
#[derive(Clone, Copy, Debug, Drop, PartialEq, Eq)]
pub enum CertText {
    /// The first place, from the left, where the text is none of a certificate: where a number or a
    /// word was to begin.
    Text { at: usize },
    /// The first place where a number is out of range, or breaks a rule with numbers before it: the
    /// number's first byte.
    Range { at: usize },
    /// The text has the first line of another version than the instance's certificates. This is
    /// tried before the two.
    Version,
    /// The text is longer than 2^28 bytes, which is tried first.
    TooLong { len: usize },
    /// Memory was refused.
    Memory,
}

impl From<TextFault> for CertText {
    ghost from_gives = { λ fault e. e ≡ as_refusal fault };

    fn from(fault: TextFault) -> CertText {
        match fault {
            TextFault::TooLarge { at } => CertText::Range { at },
            TextFault::NotWhole { at } | TextFault::Word { at } | TextFault::End { at } => {
                CertText::Text { at }
            }
        }
    }
}

impl From<PlanText> for CertText {
    ghost from_gives = { λ fault e. e ≡ of_plan fault };

    fn from(fault: PlanText) -> CertText {
        match fault {
            PlanText::Bad { fault } => CertText::from(fault),
            PlanText::TooLong { len } => CertText::TooLong { len },
            PlanText::Memory => CertText::Memory,
        }
    }
}

impl<T: Drop> From<AllocFailed<T>> for CertText {
    ghost from_gives = { λ _ e. e ≡ Memory };

    fn from(_refused: AllocFailed<T>) -> CertText {
        CertText::Memory
    }
}

impl From<AllocError> for CertText {
    ghost from_gives = { λ _ e. e ≡ Memory };

    fn from(_refused: AllocError) -> CertText {
        CertText::Memory
    }
}
