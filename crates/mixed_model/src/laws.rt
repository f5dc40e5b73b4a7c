//! Laws of proofs for several kinds of vehicles. Each is the contract of an empty function.

ghost use Rattle.std.specs.Prelude.{◌≡◌, List, ℕ};
ghost use Rattle.std.specs.List.{All};
ghost use Rattle.ev_model.specs.Network.{IsNetwork, Network};
ghost use Rattle.mixed_model.specs.Accepted.{IsMixedAccepted};
ghost use Rattle.mixed_model.specs.Broken.{IsBroken, Place};
ghost use Rattle.mixed_model.specs.Covers.{IsExactCover};
ghost use Rattle.mixed_model.specs.Kinds.{AreKinds};
ghost use Rattle.mixed_model.specs.Meaning.{kind_shares};
ghost use Rattle.mixed_model.specs.Ranges.{MixedFits};
ghost use Rattle.mixed_model.specs.Truth.{IsLeastCost, IsTrueBound, IsTrueProof};
ghost use Rattle.mixed_model.specs.declared.proof.MixedProof.{MixedProof};
ghost use Rattle.mixed_model.specs.declared.proof.MixedRoot.TheVariants.{Exact};
ghost use Rattle.mixed_model.specs.declared.proof.MixedShare.{MixedShare};

/// No plan of a fleet of these kinds costs less than the bound of an accepted proof, in any
/// fraction of a unit of charge; and where it has none, there is no plan, in any fraction.
pub fn accepted_bounds_are_true()
    ensures { (kinds : List Network) (p : MixedProof) → All IsNetwork kinds → AreKinds kinds →
        MixedFits kinds p → IsMixedAccepted kinds p → IsTrueBound kinds p.bound }
{}

/// Where an accepted proof has an exact root, no fractional cover by routes of these kinds costs
/// less than the price sum over the weight, in any fraction of a unit of charge; and the listed
/// shares are one that costs exactly that.
pub fn exact_roots_are_least_covers()
    ensures least { (kinds : List Network) (p : MixedProof) (over : ℕ) (shares : List MixedShare) →
        All IsNetwork kinds → AreKinds kinds → MixedFits kinds p → IsMixedAccepted kinds p →
        p.root ≡ Exact over shares → IsLeastCost kinds p.weight p.prices }
    ensures cost { (kinds : List Network) (p : MixedProof) (over : ℕ) (shares : List MixedShare) →
        IsMixedAccepted kinds p → p.root ≡ Exact over shares →
        IsExactCover kinds p.weight p.prices over (kind_shares shares) }
{}

/// An accepted proof tells the truth by its bound and by its root, whichever root it has.
pub fn accepted_roots_are_true()
    ensures { (kinds : List Network) (p : MixedProof) → All IsNetwork kinds → AreKinds kinds →
        MixedFits kinds p → IsMixedAccepted kinds p → IsTrueProof kinds p }
{}

/// No rule of an accepted proof is broken, so that no verdict but [`crate::MixedVerdict`]'s
/// `Accepted` is one on it.
pub fn accepted_proofs_break_no_rule()
    ensures { (kinds : List Network) (p : MixedProof) (at : Place) →
        IsMixedAccepted kinds p → IsBroken kinds p at → ⊥ }
{}
