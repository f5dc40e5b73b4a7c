//! Laws of the texts of certificates. Each is the contract of an empty function.

ghost use Rattle.std.specs.Prelude.{◌≡◌, ◌↔◌, ◌⊎◌, ◌<◌, ◌≤◌, ◌++◌, List, ℕ, Err, Ok, length, take};
ghost use Rattle.std.specs.List.{All};
ghost use Rattle.ev_model.specs.Network.{IsNetwork, Network};
ghost use Rattle.ev_text.specs.Texts.{IsLonger};
ghost use Rattle.bound_certificate.specs.CertificateIn.{BeginsLoosely, BeginsOtherVersion, SpellsWritten, certificate_in};
ghost use Rattle.bound_certificate.specs.CertificateTexts.{certificate_text};
ghost use Rattle.bound_certificate.specs.Kept.{AreSame, IsKept, IsSpelledBy};
ghost use Rattle.certificate_parts.specs.Limits.{most_bytes};
ghost use Rattle.certificate_parts.specs.Ranges.{customer_count};
ghost use Rattle.bound_certificate.specs.Ranges.{Fits};
ghost use Rattle.bound_certificate.specs.Written.{Written, written};
ghost use Rattle.bound_certificate.specs.WrittenRanges.{WrittenIs};
ghost use Rattle.bound_certificate.specs.declared.certificate.Certificate.{Certificate};
ghost use Rattle.certificate_parts.specs.declared.cert_text.CertText.TheVariants.{Range, Text, TooLong, Version};
ghost use Rattle.instance_reader.specs.Instance.{most_customers};

/// Bytes are read as a certificate exactly where they spell it: each certificate in the ranges of a
/// network has one text.
pub fn texts_spell_certificates()
    ensures { (g : Network) → IsNetwork g → (bytes : List ℕ) (w : Written) →
        (certificate_in g bytes ≡ Ok w) ↔ SpellsWritten g bytes w }
{}

/// What `push_certificate` writes of a certificate that fits is read as that certificate, where it
/// is not too long.
pub fn written_certificates_are_read()
    ensures { (g : Network) → IsNetwork g → customer_count g ≤ most_customers → (c : Certificate) →
        Fits g c → length (certificate_text g (written g c)) ≤ most_bytes →
        certificate_in g (certificate_text g (written g c)) ≡ Ok (written g c) }
{}

/// A text means one certificate: bytes are the text of no two that fit, but for how the forbidden
/// pairs are kept; and what is written of a certificate that fits tells it.
pub fn texts_mean_one_certificate()
    ensures text { (g : Network) → IsNetwork g → customer_count g ≤ most_customers →
        (bytes : List ℕ) (c d : Certificate) → IsSpelledBy g bytes c → IsSpelledBy g bytes d →
        AreSame c d }
    ensures written { (g : Network) (c d : Certificate) → Fits g c → Fits g d →
        All IsKept c.sections → All IsKept d.sections → written g c ≡ written g d →
        AreSame c d }
{}

/// What the first fault of a text tells. What stands before its place begins a text in which each
/// number is in its range by itself. However the bytes go on, they are no certificate: but where a
/// number breaks a rule and ends the text, further digits may mend it, and a text that ends too
/// early begins a text in which each number is in its range by itself.
///
/// Rules over several numbers are left out of what stands before: behind a pair that no pair may
/// follow, the first fault is at the next pair's second number, and no other number there would
/// mend it.
pub fn certificate_faults_are_first()
    ensures range { (g : Network) → IsNetwork g → (bytes : List ℕ) (at : ℕ) →
        certificate_in g bytes ≡ Err (Range at) →
        BeginsLoosely g (take at bytes) × (at ≤ length bytes) ×
        ((more : List ℕ) → (IsLonger at bytes more → ⊥) →
        (w : Written) → WrittenIs g w → certificate_text g w ≡ bytes ++ more → ⊥) }
    ensures text { (g : Network) → IsNetwork g → (bytes : List ℕ) (at : ℕ) →
        certificate_in g bytes ≡ Err (Text at) →
        BeginsLoosely g (take at bytes) × (at ≤ length bytes) ×
        (BeginsLoosely g bytes ⊎ ((more : List ℕ)
        (w : Written) → WrittenIs g w → certificate_text g w ≡ bytes ++ more → ⊥)) }
    ensures version { (g : Network) (bytes : List ℕ) → (certificate_in g bytes ≡ Err Version) ↔
        ((length bytes ≤ most_bytes) × BeginsOtherVersion g bytes) }
    ensures too_long { (g : Network) (bytes : List ℕ) (len : ℕ) →
        (certificate_in g bytes ≡ Err (TooLong len)) ↔
        ((most_bytes < length bytes) × (len ≡ length bytes)) }
{}
