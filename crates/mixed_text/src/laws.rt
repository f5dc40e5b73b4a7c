//! Laws of the texts of proofs for several kinds of vehicles. Each is the contract of an empty
//! function.

ghost use Rattle.std.specs.Prelude.{◌≡◌, ◌↔◌, ◌⊎◌, ◌<◌, ◌≤◌, ◌++◌, List, ℕ, Err, Ok, length, take};
ghost use Rattle.std.specs.List.{All};
ghost use Rattle.ev_model.specs.Network.{IsNetwork, Network};
ghost use Rattle.ev_text.specs.Texts.{IsLonger};
ghost use Rattle.certificate_parts.specs.Limits.{most_bytes};
ghost use Rattle.certificate_parts.specs.declared.cert_text.CertText.TheVariants.{Range, Text, TooLong, Version};
ghost use Rattle.mixed_model.specs.Kinds.{AreKinds};
ghost use Rattle.mixed_model.specs.Ranges.{MixedFits};
ghost use Rattle.mixed_model.specs.declared.proof.MixedProof.{MixedProof};
ghost use Rattle.mixed_text.specs.MixedIn.{BeginsLoosely, BeginsOtherVersion, IsSpelledBy, SpellsWritten, mixed_in};
ghost use Rattle.mixed_text.specs.MixedTexts.{mixed_text};
ghost use Rattle.mixed_text.specs.Written.{WrittenMixed, written_mixed};
ghost use Rattle.mixed_text.specs.WrittenRanges.{MixedIs};

/// Bytes are read as a proof for these kinds exactly where they spell it: each proof in the ranges
/// of the kinds has one text.
pub fn texts_spell_mixed_proofs()
    ensures { (kinds : List Network) → All IsNetwork kinds → AreKinds kinds →
        (bytes : List ℕ) (w : WrittenMixed) →
        (mixed_in kinds bytes ≡ Ok w) ↔ SpellsWritten kinds bytes w }
{}

/// What `push_mixed` writes of a proof in its ranges is read as that proof, where it is not too
/// long.
pub fn written_mixed_proofs_are_read()
    ensures { (kinds : List Network) → All IsNetwork kinds → AreKinds kinds → (p : MixedProof) →
        MixedFits kinds p → length (mixed_text (written_mixed kinds p)) ≤ most_bytes →
        mixed_in kinds (mixed_text (written_mixed kinds p)) ≡ Ok (written_mixed kinds p) }
{}

/// A text means one proof: bytes are the text of no two that are in the ranges of the kinds.
pub fn texts_mean_one_mixed_proof()
    ensures { (kinds : List Network) → All IsNetwork kinds → AreKinds kinds → (bytes : List ℕ)
        (p q : MixedProof) → IsSpelledBy kinds bytes p → IsSpelledBy kinds bytes q → p ≡ q }
{}

/// What the first fault of a text tells. What stands before its place begins a text in which each
/// number is in its range by itself. However the bytes go on, they are no proof for these kinds:
/// but where a number breaks a rule and ends the text, further digits may mend it, and a text that
/// ends too early begins a text in which each number is in its range by itself.
pub fn mixed_faults_are_first()
    ensures range { (kinds : List Network) → All IsNetwork kinds → AreKinds kinds →
        (bytes : List ℕ) (at : ℕ) → mixed_in kinds bytes ≡ Err (Range at) →
        BeginsLoosely kinds (take at bytes) × (at ≤ length bytes) ×
        ((more : List ℕ) → (IsLonger at bytes more → ⊥) →
        (w : WrittenMixed) → MixedIs kinds w → mixed_text w ≡ bytes ++ more → ⊥) }
    ensures text { (kinds : List Network) → All IsNetwork kinds → AreKinds kinds →
        (bytes : List ℕ) (at : ℕ) → mixed_in kinds bytes ≡ Err (Text at) →
        BeginsLoosely kinds (take at bytes) × (at ≤ length bytes) ×
        (BeginsLoosely kinds bytes ⊎ ((more : List ℕ)
        (w : WrittenMixed) → MixedIs kinds w → mixed_text w ≡ bytes ++ more → ⊥)) }
    ensures version { (kinds : List Network) (bytes : List ℕ) →
        (mixed_in kinds bytes ≡ Err Version) ↔
        ((length bytes ≤ most_bytes) × BeginsOtherVersion bytes) }
    ensures too_long { (kinds : List Network) (bytes : List ℕ) (len : ℕ) →
        (mixed_in kinds bytes ≡ Err (TooLong len)) ↔
        ((most_bytes < length bytes) × (len ≡ length bytes)) }
{}
