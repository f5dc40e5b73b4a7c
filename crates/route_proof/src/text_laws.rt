//! Laws of the texts of proofs. Each is the contract of an empty function.

ghost use Rattle.std.specs.Prelude.{◌≡◌, ◌↔◌, ◌⊎◌, ◌<◌, ◌≤◌, ◌++◌, List, ℕ, Err, Ok, length, take};
ghost use Rattle.ev_model.specs.Network.{IsNetwork, Network};
ghost use Rattle.ev_model.specs.Route.{IsRoute};
ghost use Rattle.ev_text.specs.Texts.{IsLonger};
ghost use Rattle.certificate_parts.specs.Limits.{most_bytes, most_items};
ghost use Rattle.certificate_parts.specs.declared.cert_text.CertText.TheVariants.{Range, Text, TooLong, Version};
ghost use Rattle.route_proof.specs.Ranges.{ProofFits};
ghost use Rattle.route_proof.specs.declared.proof.RouteProof.{RouteProof};
ghost use Rattle.route_proof.specs.ProofIn.{BeginsLoosely, BeginsOtherVersion, SpellsProof, proof_in};
ghost use Rattle.route_proof.specs.ProofTexts.{proof_text};
ghost use Rattle.route_proof.specs.TextRanges.{HasText};

/// Bytes are read as a proof exactly where they spell it, for a route that fits into memory: each
/// proof in the ranges of a network and a route has one text.
pub fn texts_spell_proofs()
    ensures { (g : Network) (route : List ℕ) → IsNetwork g → IsRoute g route →
        length route ≤ most_items → (bytes : List ℕ) (p : RouteProof) →
        (proof_in g route bytes ≡ Ok p) ↔ SpellsProof g route bytes p }
{}

/// What `push_proof` writes of a proof in its ranges is read as that proof, where it is not too
/// long.
pub fn written_proofs_are_read()
    ensures { (g : Network) (route : List ℕ) → IsNetwork g → IsRoute g route →
        length route ≤ most_items → (p : RouteProof) → ProofFits g route p →
        length (proof_text p) ≤ most_bytes → proof_in g route (proof_text p) ≡ Ok p }
{}

/// A text means one proof: bytes are the text of no two that are in their ranges.
pub fn texts_mean_one_proof()
    ensures { (g : Network) (route : List ℕ) → IsNetwork g → IsRoute g route →
        length route ≤ most_items → (bytes : List ℕ) (p q : RouteProof) →
        SpellsProof g route bytes p → SpellsProof g route bytes q → p ≡ q }
{}

/// What the first fault of a text tells. What stands before its place begins a text in which each
/// number is in its range by itself. However the bytes go on, they are no proof: but where a number
/// breaks a rule and ends the text, further digits may mend it, and a text that ends too early
/// begins a text in which each number is in its range by itself.
pub fn proof_faults_are_first()
    ensures range { (g : Network) (route : List ℕ) → IsNetwork g → IsRoute g route →
        length route ≤ most_items → (bytes : List ℕ) (at : ℕ) →
        proof_in g route bytes ≡ Err (Range at) →
        BeginsLoosely g route (take at bytes) × (at ≤ length bytes) ×
        ((more : List ℕ) → (IsLonger at bytes more → ⊥) →
        (p : RouteProof) → HasText g route p → proof_text p ≡ bytes ++ more → ⊥) }
    ensures text { (g : Network) (route : List ℕ) → IsNetwork g → IsRoute g route →
        length route ≤ most_items → (bytes : List ℕ) (at : ℕ) →
        proof_in g route bytes ≡ Err (Text at) →
        BeginsLoosely g route (take at bytes) × (at ≤ length bytes) ×
        (BeginsLoosely g route bytes ⊎ ((more : List ℕ)
        (p : RouteProof) → HasText g route p → proof_text p ≡ bytes ++ more → ⊥)) }
    ensures version { (g : Network) (route bytes : List ℕ) →
        (proof_in g route bytes ≡ Err Version) ↔
        ((length bytes ≤ most_bytes) × BeginsOtherVersion bytes) }
    ensures too_long { (g : Network) (route bytes : List ℕ) (len : ℕ) →
        (proof_in g route bytes ≡ Err (TooLong len)) ↔
        ((most_bytes < length bytes) × (len ≡ length bytes)) }
{}
