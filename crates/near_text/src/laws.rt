//! Laws of the texts of near proofs. Each is the contract of an empty function.

ghost use Rattle.std.specs.Prelude.{◌≡◌, ◌↔◌, ◌⊎◌, ◌<◌, ◌≤◌, ◌++◌, List, ℕ, Err, Ok, length, take};
ghost use Rattle.ev_model.specs.Network.{IsNetwork, Network};
ghost use Rattle.ev_text.specs.Texts.{IsLonger};
ghost use Rattle.certificate_parts.specs.Limits.{most_bytes};
ghost use Rattle.certificate_parts.specs.Ranges.{customer_count};
ghost use Rattle.certificate_parts.specs.declared.cert_text.CertText.TheVariants.{Range, Text, TooLong, Version};
ghost use Rattle.near_proof.specs.Ranges.{NearFits};
ghost use Rattle.near_proof.specs.declared.proof.NearProof.{NearProof};
ghost use Rattle.near_text.specs.NearIn.{BeginsLoosely, BeginsOtherVersion, IsSpelledBy, SpellsWritten, near_in};
ghost use Rattle.near_text.specs.NearTexts.{near_text};
ghost use Rattle.near_text.specs.Written.{WrittenNear, written_near};
ghost use Rattle.near_text.specs.WrittenRanges.{NearIs};
ghost use Rattle.instance_reader.specs.Instance.{most_customers};

/// Bytes are read as a near proof exactly where they spell it: each near proof in the ranges of a
/// network has one text.
pub fn texts_spell_near_proofs()
    ensures { (g : Network) → IsNetwork g → customer_count g ≤ most_customers →
        (bytes : List ℕ) (w : WrittenNear) → (near_in g bytes ≡ Ok w) ↔ SpellsWritten g bytes w }
{}

/// What `push_near` writes of a near proof in its ranges is read as that proof, where it is not too
/// long.
pub fn written_near_proofs_are_read()
    ensures { (g : Network) → IsNetwork g → customer_count g ≤ most_customers → (p : NearProof) →
        NearFits g p → length (near_text (written_near g p)) ≤ most_bytes →
        near_in g (near_text (written_near g p)) ≡ Ok (written_near g p) }
{}

/// A text means one near proof: bytes are the text of no two that are in their ranges.
pub fn texts_mean_one_near_proof()
    ensures { (g : Network) → IsNetwork g → customer_count g ≤ most_customers → (bytes : List ℕ)
        (p q : NearProof) → IsSpelledBy g bytes p → IsSpelledBy g bytes q → p ≡ q }
{}

/// What the first fault of a text tells. What stands before its place begins a text in which each
/// number is in its range by itself. However the bytes go on, they are no near proof: but where a
/// number breaks a rule and ends the text, further digits may mend it, and a text that ends too
/// early begins a text in which each number is in its range by itself.
pub fn near_faults_are_first()
    ensures range { (g : Network) → IsNetwork g → customer_count g ≤ most_customers →
        (bytes : List ℕ) (at : ℕ) → near_in g bytes ≡ Err (Range at) →
        BeginsLoosely g (take at bytes) × (at ≤ length bytes) ×
        ((more : List ℕ) → (IsLonger at bytes more → ⊥) →
        (w : WrittenNear) → NearIs g w → near_text w ≡ bytes ++ more → ⊥) }
    ensures text { (g : Network) → IsNetwork g → customer_count g ≤ most_customers →
        (bytes : List ℕ) (at : ℕ) → near_in g bytes ≡ Err (Text at) →
        BeginsLoosely g (take at bytes) × (at ≤ length bytes) ×
        (BeginsLoosely g bytes ⊎ ((more : List ℕ)
        (w : WrittenNear) → NearIs g w → near_text w ≡ bytes ++ more → ⊥)) }
    ensures version { (g : Network) (bytes : List ℕ) → (near_in g bytes ≡ Err Version) ↔
        ((length bytes ≤ most_bytes) × BeginsOtherVersion bytes) }
    ensures too_long { (g : Network) (bytes : List ℕ) (len : ℕ) →
        (near_in g bytes ≡ Err (TooLong len)) ↔
        ((most_bytes < length bytes) × (len ≡ length bytes)) }
{}
