//! Laws of proofs of bounds of either kind. Each is the contract of an empty function.

ghost use Rattle.std.specs.Prelude.{◌≡◌, ◌≤◌, List, length, true, ℕ};
ghost use Rattle.certificate_parts.specs.Limits.{most_bytes};
ghost use Rattle.ev_model.specs.Network.{IsNetwork, Network};
ghost use Rattle.near_proof.specs.Truth.{IsTrueNearBound};
ghost use Rattle.tree_text.specs.BoundProofs.{BoundFits, IsAcceptedProof, IsBoundShown, IsKeptProof, bound_of, bound_proof_text};
ghost use Rattle.tree_text.specs.BoundTexts.{HasProof, IsUnread};
ghost use Rattle.tree_text.specs.BoundVerdicts.{IsBoundVerdict, is_accepted};
ghost use Rattle.tree_text.specs.declared.bounds.judging.BoundVerdict.{BoundVerdict};
ghost use Rattle.tree_text.specs.declared.bounds.proof.BoundProof.{BoundProof};
ghost use Rattle.tree_text.specs.declared.bounds.reading.BoundText.{BoundText};

/// What `push_bound_proof` writes of a proof in its ranges is read as that proof, where it is not
/// too long.
pub fn bound_proofs_are_read()
    ensures { (g : Network) → IsNetwork g → (p : BoundProof) → BoundFits g p → IsKeptProof p →
        length (bound_proof_text g p) ≤ most_bytes → HasProof g (bound_proof_text g p) p }
{}

/// A text means one proof, of one kind.
pub fn bound_texts_mean_one_proof()
    ensures { (g : Network) (bytes : List ℕ) (p q : BoundProof) → HasProof g bytes p →
        HasProof g bytes q → p ≡ q }
{}

/// Bytes that are the text of a proof have no fault.
pub fn proofs_have_no_fault()
    ensures { (g : Network) (bytes : List ℕ) (p : BoundProof) (fault : BoundText) →
        HasProof g bytes p → IsUnread g bytes fault → ⊥ }
{}

/// An accepted proof breaks no rule of its kind.
pub fn accepted_bound_proofs_break_no_rule()
    ensures { (g : Network) (p : BoundProof) (v : BoundVerdict) → IsAcceptedProof g p →
        IsBoundVerdict g p v → is_accepted v ≡ true }
{}

/// No fleet plan costs less than a bound that is shown, in any fraction of a unit of charge; and
/// where there is none, there is no fleet plan, in any fraction.
pub fn a_shown_bound_is_true()
    ensures { (g : Network) (p : BoundProof) → IsBoundShown g p → IsTrueNearBound g (bound_of p) }
{}
