//! A law of proofs for one kind of vehicle, as the contract of an empty function.

ghost use Rattle.std.specs.Prelude.{◌↔◌, ◌∷◌, []};
ghost use Rattle.certificate_check.specs.Accepted.{IsAccepted};
ghost use Rattle.customer_sets.specs.Pairs.{ForbiddenPairs};
ghost use Rattle.ev_model.specs.Network.{Network};
ghost use Rattle.mixed_model.specs.OneKind.{AllowsEach, as_certificate};
ghost use Rattle.mixed_model.specs.Accepted.{IsMixedAccepted};
ghost use Rattle.mixed_model.specs.Ranges.{MixedFits};
ghost use Rattle.mixed_model.specs.declared.proof.MixedProof.{MixedProof};

/// With one kind, a proof in its ranges is accepted exactly where the certificate is that has its
/// prices and labels as the one section, without forbidden pairs, and no split.
pub fn one_kind_proofs_are_certificates()
    ensures { (g : Network) (p : MixedProof) (pairs : ForbiddenPairs) → MixedFits (g ∷ []) p →
        AllowsEach pairs →
        IsMixedAccepted (g ∷ []) p ↔ IsAccepted g (as_certificate pairs p) }
{}
